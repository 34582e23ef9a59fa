// The fields named so far: finding one by its name, and one more. docs/TEXT.md, "Fields by name, and the builders as statements".
ghost use Rattle.std.specs.Prelude.{◌≡◌, ◌<◌, [], ◌∷◌, ◌++◌, length, cond, Some, None};
ghost use Rattle.assembly.specs.Fields.{named, known, span_of};

use crate::Span;
use std::marker::Model;

// At most 256 fields, in the order of the text. Names and spans stand apart: together they would take 16 bytes a field, and the stack that the C header gives assembling is less than that.
#[derive(Drop)]
pub(crate) struct Fields {
    names: [u64; 256],
    spans: [Span; 256],
    count: usize,
}

impl Model for Fields {
    ghost use Rattle.std.specs.Prelude.{◌≡◌, ◌≤◌, length};
    ghost use Rattle.assembly.specs.Fields.{Named, firsts};

    ghost Value = { Named };

    ghost view = { λ f. firsts f.count f.names f.spans };

    ghost invariant = { λ f. (f.count ≤ 256) × (length f.spans ≡ 256) };
}

impl Fields {
    // None so far.
    pub fn none() -> Fields
        ensures { result ≡ named [] [] [] }
    {
        Fields {
            names: [0; 256],
            spans: [Span { start: 0, width: 0 }; 256],
            count: 0,
        }
    }

    // None again.
    pub fn clear(&mut self)
        ensures { self.new ≡ named [] [] [] }
    {
        self.count = 0;
    }

    // How many there are.
    pub fn len(&self) -> usize
        ensures { result ≡ length self.now.names }
    {
        self.count
    }

    // The start and the width of the field with this name.
    pub fn span_of(&self, w: u64) -> Option<Span>
        ensures { result ≡ cond (known self.now w) (Some (span_of self.now w)) None }
    {
        let k = spelling::find(&self.names[..self.count], w)?;
        Some(self.spans[k])
    }

    // One field more.
    pub fn push(&mut self, name: u64, span: Span)
        requires { length self.old.names < 256 }
        ensures { self.new ≡ named (self.old.names ++ (name ∷ [])) (self.old.starts ++ (span.start ∷ [])) (self.old.widths ++ (span.width ∷ [])) }
    {
        self.names[self.count] = name;
        self.spans[self.count] = span;
        self.count += 1;
    }
}
