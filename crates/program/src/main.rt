// The program: a run in the folder that it is started in; or, with words behind its name, a picture's file converted, a list shown as text, or a list and its items made of a text.
#![tactic(auto)]

mod arguments;
mod convert;
mod files;
mod folder;
mod lists;

fn main(rt: HostRuntime) {
    // A failure has been told to standard error: what the program ends with is the same.
    let _ = if arguments::arg_count(&rt) > 1 {
        arguments::asked(&rt)
    } else {
        folder::run(&rt)
    };
}
