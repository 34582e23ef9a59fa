// What lists on fields leave, word by word: laws alone, of the lists that `builders` builds and of the run that `module` makes. The crate promises states them on a page, specs/DemandThree.antt.
#![tactic(auto)]
