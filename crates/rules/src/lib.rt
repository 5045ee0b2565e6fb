// The types of the library: contexts, operations, the answer record, and what the readers and the string writer find. specs/ holds the rules.
#![tactic(auto)]

ghost use Rattle.std.specs.Prelude.{◌≡◌, ◌≤◌, length};
ghost use Rattle.rules.specs.Contexts.{context_of};
ghost use Rattle.rules.specs.Answers.{whole};
ghost use Rattle.rules.specs.Refusals.{refusal as refusal_of};
ghost use Rattle.rules.specs.Stream.{held_in};
ghost use Rattle.rules.specs.Moves.{reason_number};

// The longest text that a call takes, in bytes.
pub const TEXT_LIMIT: usize = 65536;

// The contexts: the seven HTML contexts, the script strings, the style strings, text inside a script element, JSON strings, and quoted attributes in ASCII.
pub const TEXT_MINIMAL: u32 = 0;

pub const TEXT: u32 = 1;

pub const DOUBLE_QUOTED: u32 = 2;

pub const SINGLE_QUOTED: u32 = 3;

pub const QUOTED: u32 = 4;

pub const SAFE: u32 = 5;

pub const UNQUOTED: u32 = 6;

pub const SCRIPT_SINGLE: u32 = 7;

pub const SCRIPT_DOUBLE: u32 = 8;

pub const SCRIPT_QUOTED: u32 = 9;

pub const STYLE_SINGLE: u32 = 10;

pub const STYLE_DOUBLE: u32 = 11;

pub const STYLE_QUOTED: u32 = 12;

pub const SCRIPT_RAW: u32 = 13;

pub const JSON: u32 = 14;

pub const ASCII_QUOTED: u32 = 15;

// The statuses of an answer.
pub const PASSED: usize = 0;

pub const TOO_LONG: usize = 1;

pub const NOT_UTF8: usize = 2;

pub const NO_ROOM: usize = 3;

pub const NOT_A_FORM: usize = 4;

pub const BAD_CONTEXT: usize = 5;

pub const BAD_REQUEST: usize = 6;

pub const CUT_SHORT: usize = 7;

pub const BAD_RANGE: usize = 8;

pub const FINISHED: usize = 9;

pub const LONE_SURROGATE: usize = 10;

// The most records that a page takes.
pub const FIELD_LIMIT: usize = 256;

// The seven HTML contexts.
#[derive(Clone, Copy)]
pub enum Html {
    TextMinimal,
    Text,
    DoubleQuoted,
    SingleQuoted,
    Quoted,
    Safe,
    Unquoted,
}

// What a reference is part of in browse: text, or the value of an attribute.
#[derive(Clone, Copy)]
pub enum Kind {
    InText,
    InAttribute,
}

// Which quotes a script or style string escapes; both in script_quoted and style_quoted.
#[derive(Clone, Copy)]
pub enum Quotes {
    Single,
    Double,
    Both,
}

// The language of a string that decode reads as older pages have it too, by the name of its element.
#[derive(Clone, Copy)]
pub enum Language {
    Script,
    Style,
}

// How a string is written: which control bytes and line separators are escaped, and how these and `<` are.
#[derive(Clone, Copy)]
pub enum Notation {
    Script,
    Style,
    Json,
}

// The fifteen contexts that have units.
#[derive(Clone, Copy)]
pub enum Context {
    InHtml(Html),
    InScript(Quotes),
    InStyle(Quotes),
    InJson,
    InAscii,
}

// The context that a call names: one of the fifteen, script_raw, or none. RULES 4 and the definitions over it
// speak of three cases side by side; an Option of two would nest them in each.
#[derive(Clone, Copy)]
pub enum AnyContext {
    Units(Context),
    ScriptRaw,
    Unknown,
}

// The operations that go through a text.
#[derive(Clone, Copy)]
pub enum Operation {
    Encode,
    Decode,
    Read,
    Browse,
}

// The answer record of every call, laid out as C lays it out.
#[repr(C)]
#[derive(Clone, Copy)]
pub struct Answer {
    pub status: usize,
    pub length: usize,
    pub same: usize,
    pub replaced: usize,
    pub place: usize,
    pub left: usize,
    pub reason: usize,
}

impl Answer {
    // Returns a refusal by its three numbers; the others are 0.
    pub fn refusal(status: usize, length: usize, place: usize) -> Answer
        ensures { result ≡ refusal_of status length place }
    {
        Answer {
            status,
            length,
            same: 0,
            replaced: 0,
            place,
            left: 0,
            reason: 0,
        }
    }
}

// What `check` answers, laid out as C lays it out.
#[repr(C)]
#[derive(Clone, Copy)]
pub struct Checked {
    pub status: usize,
    pub length: usize,
    pub place: usize,
}

// A record of a page, laid out as C lays it out: the context and the part of the text that it asks for; where its result begins, and its answer.
#[repr(C)]
#[derive(Clone, Copy)]
pub struct Field {
    pub context: u32,
    pub start: usize,
    pub length: usize,
    pub begins: usize,
    pub answer: Answer,
}

// What the call on a page answers: the status of the refusal that stopped it, and how many records passed.
#[repr(C)]
#[derive(Clone, Copy)]
pub struct Filled {
    pub status: usize,
    pub passed: usize,
}

// A reference that decode leaves: the place of its `&`, and why it stays.
#[derive(Clone, Copy)]
pub struct Left {
    pub place: usize,
    pub reason: Reason,
}

// What a pass over a text finds: the length of the result, how far the text is taken, how many
// places are replaced, and the first reference that stays.
#[derive(Clone, Copy)]
pub struct Measured {
    pub length: usize,
    pub place: usize,
    pub replaced: usize,
    pub left: Option<Left>,
}

impl Measured {
    // Returns what a pass finds that leaves no reference.
    pub fn whole(length: usize, place: usize, replaced: usize) -> Measured
        ensures { result ≡ whole length place replaced }
    {
        Measured {
            length,
            place,
            replaced,
            left: None,
        }
    }
}

// How far a raw script by parts has come: the first `count` bytes of `held` are held back (all eight where `count` is more), `done` bytes of the text
// came before them, and `finished` says that a finish has passed. Every value has a meaning.
#[derive(Clone, Copy)]
pub struct RawState {
    pub held: [u8; 8],
    pub count: usize,
    pub done: usize,
    pub finished: bool,
}

impl RawState {
    // Returns the bytes that are held back.
    pub fn held_bytes(&self) -> &[u8]
        ensures { (result.now ≡ held_in self.now) × (length result.now ≤ 8) }
    {
        &self.held[..self.count.min(8)]
    }
}

// What a call of a raw script by parts gives: its answer, and the state after it.
#[derive(Clone, Copy)]
pub struct RawPart {
    pub answer: Answer,
    pub state: RawState,
}

// What a reference stands for: a text of the table of names, its bytes packed into one number, or a character by its number. No Result: neither fails.
#[derive(Clone, Copy)]
pub enum DecodedEntityValue {
    Named(u64),
    Character(u32),
}

// A found reference: where its `&` is, the place past its `;`, and what it stands for.
#[derive(Clone, Copy)]
pub struct DecodedEntity {
    pub start: usize,
    pub end: usize,
    pub value: DecodedEntityValue,
}

// Why a reference stays: no `;` before the next `&` or the end, an empty body, an unknown name, a byte that is no digit of its base, or a number that is
// not allowed.
#[derive(Clone, Copy)]
pub enum Reason {
    NoEnd,
    Empty,
    UnknownName,
    NoDigit,
    NotAllowed,
}

// The number of a reason in an answer record.
impl From<Reason> for usize {
    ghost from_gives = { λ reason number. number ≡ reason_number reason };

    fn from(reason: Reason) -> usize {
        match reason {
            Reason::NoEnd => 1,
            Reason::Empty => 2,
            Reason::UnknownName => 3,
            Reason::NoDigit => 4,
            Reason::NotAllowed => 5,
        }
    }
}

// An escape or a unit that a reader found: how many bytes it takes, and the number of its character.
#[derive(Clone, Copy)]
pub struct Escape {
    pub taken: usize,
    pub character: u32,
}

// How a string encoder escapes a character: a backslash before it, its two hex digits, `\u2028` or `\u2029`, or U+FFFD in place of NUL.
#[derive(Clone, Copy)]
pub enum Replacement {
    Slashed,
    Hex,
    Separator,
    Substitute,
}

// How the text of a script element is read: as it is, escaped once (after `<!--`), or escaped twice (after a start tag `<script` in that).
#[derive(Clone, Copy)]
pub enum ScriptMode {
    Plain,
    Once,
    Twice,
}

// The answer about a script element's text, laid out as C lays it out.
#[repr(C)]
#[derive(Clone, Copy)]
pub struct Closing {
    pub status: usize,
    pub found: usize,
    pub place: usize,
}

// Returns the context of a number, 0 to 15; any other number has none.
#[tactic(auto, unfolding(crate::specs::Contexts::context_of))]
pub fn context_of(number: u32) -> AnyContext
    ensures { result ≡ context_of number }
{
    match number {
        TEXT_MINIMAL => AnyContext::Units(Context::InHtml(Html::TextMinimal)),
        TEXT => AnyContext::Units(Context::InHtml(Html::Text)),
        DOUBLE_QUOTED => AnyContext::Units(Context::InHtml(Html::DoubleQuoted)),
        SINGLE_QUOTED => AnyContext::Units(Context::InHtml(Html::SingleQuoted)),
        QUOTED => AnyContext::Units(Context::InHtml(Html::Quoted)),
        SAFE => AnyContext::Units(Context::InHtml(Html::Safe)),
        UNQUOTED => AnyContext::Units(Context::InHtml(Html::Unquoted)),
        SCRIPT_SINGLE => AnyContext::Units(Context::InScript(Quotes::Single)),
        SCRIPT_DOUBLE => AnyContext::Units(Context::InScript(Quotes::Double)),
        SCRIPT_QUOTED => AnyContext::Units(Context::InScript(Quotes::Both)),
        STYLE_SINGLE => AnyContext::Units(Context::InStyle(Quotes::Single)),
        STYLE_DOUBLE => AnyContext::Units(Context::InStyle(Quotes::Double)),
        STYLE_QUOTED => AnyContext::Units(Context::InStyle(Quotes::Both)),
        SCRIPT_RAW => AnyContext::ScriptRaw,
        JSON => AnyContext::Units(Context::InJson),
        ASCII_QUOTED => AnyContext::Units(Context::InAscii),
        _ => AnyContext::Unknown,
    }
}
