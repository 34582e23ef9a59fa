// A whole text: its lines in turn, once to measure and to judge, and once to write. docs/TEXT.md, "Words, lines and comments"; Refusals.
ghost use Rattle.std.specs.Prelude.{◌≡◌, false, [], ◌+◌, ◌≤◌, length};
ghost use Rattle.bits.specs.Steps.{put_at};
ghost use Rattle.registers.specs.Modes.{none_set};
ghost use Rattle.assembly.specs.Fields.{named};
ghost use Rattle.assembly.specs.Acts.{limit_by, modes_by_act, taken_by_act, list_of, items_of};
ghost use Rattle.assembly.specs.Assembly.{outcome_of, made_list, made_items};
ghost use Rattle.assembly.specs.Steps.{Measures, made};

use crate::Act;
use crate::acts::{items_size, limit_by, list_size, modes_by, place, put_name, taken_by};
use crate::fields::Fields;
use crate::statements::line_act;
use builders::Sizes;
use registers::{ModeRegister, Modes};
use text::Refused;

// What stands behind the lines so far, beside the fields: the limit (0: none), the mode registers, whether an instruction takes an item from outside, and the bytes of the list and of the items.
// No limit is 0 and no Option, as in the definitions (`over_by`, `limit_by`).
#[derive(Clone, Copy)]
pub struct Standing {
    pub limit: usize,
    pub modes: Modes,
    pub taken: bool,
    pub list: usize,
    pub items: usize,
}

// Before the first line.
// The registers are a literal here, as in text, whose `none_set` is private.
fn begin() -> Standing
    ensures { result ≡ record { limit = 0; modes = none_set; taken = false; list = 0; items = 0 } }
{
    let register = ModeRegister { set: 0, mode: 0 };
    Standing {
        limit: 0,
        modes: Modes {
            a: register,
            b: register,
        },
        taken: false,
        list: 0,
        items: 0,
    }
}

// Behind a line that makes `act`.
fn advance(s: Standing, act: Act) -> Standing
    requires { (s.list ≤ 281474976710656) × (s.items ≤ 281474976710656) }
    ensures { (result.list ≤ s.list + 22456) × (result.items ≤ s.items + 8160)
        × (result ≡ record {
          limit = limit_by (made act) s.limit;
          modes = modes_by_act (made act) s.modes;
          taken = taken_by_act (made act) s.taken;
          list = s.list + length (list_of (made act));
          items = s.items + length (items_of (made act));
        }) }
{
    Standing {
        limit: limit_by(act, s.limit),
        modes: modes_by(act, s.modes),
        taken: taken_by(act, s.taken),
        list: s.list + list_size(act),
        items: s.items + items_size(act),
    }
}

// The first walk: the bytes of the list and of the items, or the first refusal.
pub(crate) fn measure(text: &[u8], fields: &mut Fields) -> Result<Sizes, Refused>
    requires { (length text.now ≤ 1048576) × (fields.old ≡ named [] [] []) }
    ensures { Measures (outcome_of text.now) result }
{
    let mut s = begin();
    for (k, line) in text.split(|c| *c == b'\n').enumerate() {
        let act = match line_act(fields, s.limit, s.modes, s.taken, line) {
            Ok(act) => act,
            Err(fault) => {
                return Err(Refused {
                    why: fault.why,
                    line: k + 1,
                    column: fault.column,
                });
            }
        };
        put_name(act, fields);
        s = advance(s, act);
    }
    Ok(Sizes {
        list: s.list,
        items: s.items,
    })
}

// The second walk: the list and the items, at the fronts of their buffers. No line is refused, and there is room.
pub(crate) fn write(text: &[u8], fields: &mut Fields, list: &mut [u8], items: &mut [u8])
    requires { (length text.now ≤ 1048576) × (fields.old ≡ named [] [] []) × ((outcome_of text.now).number ≡ 0)
        × (length (made_list text.now) ≤ length list.old) × (length (made_items text.now) ≤ length items.old) }
    ensures { (list.new ≡ put_at 0 (made_list text.now) list.old)
        × (items.new ≡ put_at 0 (made_items text.now) items.old) }
{
    let mut s = begin();
    for line in text.split(|c| *c == b'\n') {
        if let Ok(act) = line_act(fields, s.limit, s.modes, s.taken, line) {
            place(act, list, s.list, items, s.items);
            put_name(act, fields);
            s = advance(s, act);
        }
    }
}
