// Why a call is refused: every reason has one number, which documents 01 and 02 fix and docs/numbers.tsv explains.
ghost use Rattle.std.specs.Prelude.{◌≡◌};
ghost use Rattle.bits.specs.Refusals.{number_of_refusal};

// A reason to refuse. The names are those of docs/numbers.tsv.
#[derive(Clone, Copy, Debug, PartialEq, Eq)]
pub enum Refusal {
    MemoryLength = 1,
    RegistersLength = 2,
    ListLength = 3,
    ItemsLength = 4,
    Kind = 5,
    Source = 6,
    NoMode = 7,
    ModeTag = 8,
    ModeUnused = 9,
    Logic = 11,
    ItemsTooFew = 12,
    OutTooShort = 13,
    ModeUnset = 14,
    ModeRegisters = 15,
    GroupTooWide = 16,
    ShiftNotBelow = 17,
    MoveBarred = 18,
    FileLength = 20,
    BlockSums = 21,
    BlockKind = 22,
    BlockNumber = 23,
    BlockForm = 24,
    ContentSize = 25,
    LentLength = 26,
    OutputTooShort = 27,
    ModeSet = 28,
    Width = 30,
    FieldBeyond = 31,
    FieldsCross = 32,
    ListTooShort = 33,
    NumberTooLarge = 34,
    MarksLength = 35,
    NotIsolated = 40,
    TextLength = 50,
    TextName = 60,
    TextChoice = 61,
    TextFunction = 62,
    TextSource = 63,
    TextNumber = 64,
    TextWord = 65,
    TextShift = 66,
    TextTooMuch = 67,
    TextByte = 68,
    TextTooEarly = 69,
    TextFieldName = 70,
    TextFieldTwice = 71,
    TextFieldsTooMany = 72,
    TextFieldUnknown = 73,
    TextFieldWidth = 74,
    TextReach = 75,
    TextValue = 76,
    TextItemAbove = 77,
}

impl Refusal {
    // Its number.
    // No From for u8: it would be this line under a name that does not say what it is.
    pub fn number(self) -> u8
        ensures { result ≡ number_of_refusal self }
    {
        self as u8
    }
}
