// Gives each of some sixty texts to the calls for parts of a raw script, in two and in three parts, cut at every place, and byte by byte, and compares
// what comes out with one encode of the whole: the bytes, the backslashes, and the status and place of a refusal. Prints for each text in how many ways
// it was given, and in how many of them something differed.
#![tactic(auto)]

use lintelrye::{Answer, PASSED, RawPart, RawState};
use std::io;

// More than any of the texts and results here has.
const ROOM: usize = 64;

// How far a text is given: the state, how many bytes are written, and how many backslashes are
// among them.
#[derive(Clone, Copy)]
struct Given {
    state: RawState,
    length: usize,
    replaced: usize,
}

impl Given {
    // Returns the state of a text of which nothing is given yet.
    fn nothing() -> Given {
        Given {
            state: lintelrye::script_raw_start(),
            length: 0,
            replaced: 0,
        }
    }

    // Returns what is given after a call, or the refusal after which nothing more is given. A
    // passed call whose `same` is not 0 is none that one encode answers.
    fn after(self, part: RawPart) -> Result<Given, Answer> {
        let answer = part.answer;
        if answer.status != PASSED || answer.same != 0 {
            return Err(answer);
        }
        Ok(Given {
            state: part.state,
            length: self.length.wrapping_add(answer.length),
            replaced: self.replaced.wrapping_add(answer.replaced),
        })
    }

    // Gives a part to the encoder, whose result goes behind those before it.
    fn give(self, text: &[u8], joined: &mut [u8]) -> Result<Given, Answer> {
        match joined.get_mut(self.length..) {
            Some(free) => self.after(lintelrye::script_raw_part(self.state, text, free)),
            None => Ok(self),
        }
    }

    // Ends the text: makes the finish call.
    fn end(self, joined: &mut [u8]) -> Result<Given, Answer> {
        match joined.get_mut(self.length..) {
            Some(free) => self.after(lintelrye::script_raw_finish(self.state, free)),
            None => Ok(self),
        }
    }
}

// Gives the parts one after the other, and ends the text.
fn give_all(parts: &[&[u8]], joined: &mut [u8]) -> Result<Given, Answer> {
    let mut given = Given::nothing();
    for part in parts {
        given = given.give(part, joined)?;
    }
    given.end(joined)
}

// Gives a text in parts of one byte each, and ends it.
fn give_bytes(text: &[u8], joined: &mut [u8]) -> Result<Given, Answer> {
    let mut given = Given::nothing();
    for part in text.chunks(1) {
        given = given.give(part, joined)?;
    }
    given.end(joined)
}

// What one encode answers for a whole text, and writes.
#[derive(Clone, Copy)]
struct Whole<'a> {
    answer: Answer,
    written: &'a [u8],
}

impl Whole<'_> {
    // Reports whether the parts together, written in `joined`, are the same.
    fn is_given(self, given: Result<Given, Answer>, joined: &[u8]) -> bool {
        let answer = self.answer;
        match given {
            Ok(given) => {
                answer.status == PASSED
                    && given.length == answer.length
                    && given.replaced == answer.replaced
                    && is_equal(joined.get(..given.length), self.written.get(..given.length))
            }
            Err(refused) => {
                answer.status != PASSED
                    && refused.status == answer.status
                    && refused.place == answer.place
            }
        }
    }

    // Reports whether the text gives the same in these parts.
    fn is_in(self, parts: &[&[u8]]) -> bool {
        let mut joined = [0; ROOM];
        let given = give_all(parts, &mut joined);
        self.is_given(given, &joined)
    }
}

// Reports whether both slices are there, and hold the same.
fn is_equal(a: Option<&[u8]>, b: Option<&[u8]>) -> bool {
    match (a, b) {
        (Some(a), Some(b)) => *a == *b,
        _ => false,
    }
}

// How many ways were tried, and in how many something differed.
#[derive(Clone, Copy)]
struct Tally {
    ways: u64,
    differ: u64,
}

impl Tally {
    // Counts one way more, and whether it was right.
    fn count(&mut self, right: bool) {
        self.ways = self.ways.wrapping_add(1);
        if !right {
            self.differ = self.differ.wrapping_add(1);
        }
    }
}

// Tries every cut of a text of less than 64 bytes, in two parts and in three, and byte by byte.
fn every_cut(text: &[u8], whole: Whole) -> Tally {
    let mut tally = Tally { ways: 0, differ: 0 };
    let mut joined = [0; ROOM];
    let given = give_bytes(text, &mut joined);
    tally.count(whole.is_given(given, &joined));
    for a in 0..=text.len().min(ROOM - 1) {
        tally.count(whole.is_in(&[&text[..a], &text[a..]]));
        for b in a..=text.len().min(ROOM - 1) {
            tally.count(whole.is_in(&[&text[..a], &text[a..b], &text[b..]]));
        }
    }
    tally
}

// Encodes a text whole, gives it in parts in every way, and prints what one encode answers and the tally.
fn try_text(rt: &HostRuntime, text: &[u8]) -> io::Result<()> {
    let mut written = [0; ROOM];
    let answer = lintelrye::encode(lintelrye::SCRIPT_RAW, text, &mut written);
    let whole = Whole {
        answer,
        written: &written,
    };
    let Tally { ways, differ } = every_cut(text, whole);
    println!(rt;
        "{} {}, ways {ways}, differ {differ}",
        answer.status, answer.replaced
    )
}

// Tries texts one after the other.
fn try_all(rt: &HostRuntime, texts: &[&[u8]]) -> io::Result<()> {
    for text in texts {
        try_text(rt, text)?;
    }
    Ok(())
}

// Tries comments, and what only begins one.
fn comments(rt: &HostRuntime) -> io::Result<()> {
    let texts: [&[u8]; 14] = [
        b"",
        b"<",
        b"<!",
        b"<!-",
        b"<!--",
        b"<!---",
        b"<!--<!--<!--",
        b"<!-<!---",
        b"<!<!-<!--",
        b"<<!--",
        b"<!-x<!x<x",
        b"a<!--b-->c",
        b"!--<",
        b"<!\xe2\x80\x93-",
    ];
    try_all(rt, &texts)
}

// Tries end tags, and what only begins one.
fn end_tags(rt: &HostRuntime) -> io::Result<()> {
    let texts: [&[u8]; 24] = [
        b"</",
        b"</s",
        b"</scrip",
        b"</script",
        b"</script>",
        b"</SCRIPT>",
        b"</ScRiPt/",
        b"</sCrIpT\x09",
        b"</script\x0a",
        b"</script\x0b",
        b"</script\x0c",
        b"</script\x0d",
        b"</script\x1c",
        b"</script\x1f",
        b"</script ",
        b"</script\x08</script\x0e",
        b"</script\x1b</script!",
        b"</scripts></script>",
        b"</scr</script",
        b"</s</sc</scr</scri</scrip",
        b"<</script",
        b"</script</script",
        b"</script<!--</script>",
        b"</ script></script",
    ];
    try_all(rt, &texts)
}

// Tries characters of each length, whole, cut short and wrong.
fn characters(rt: &HostRuntime) -> io::Result<()> {
    let texts: [&[u8]; 18] = [
        b"\x00\x7f",
        b"\xc2\x80\xdf\xbf",
        b"\xe0\xa0\x80\xed\x9f\xbf",
        b"\xee\x80\x80\xef\xbf\xbf",
        b"\xf0\x90\x80\x80\xf4\x8f\xbf\xbf",
        b"<\xc3\xa9<!--\xe2\x82\xac</script\xf0\x9f\x98\x80",
        b"</script\xe2\x80\xa8",
        b"</\xc5\xbfcript>",
        b"ab\xc3",
        b"ab</script\xe2\x82",
        b"<!-\xf0\x9f\x98",
        b"ab\xc3(c",
        b"\xe0\x9f\xbf",
        b"a\xed\xa0\x80",
        b"\xf4\x90\x80\x80",
        b"</script\x80",
        b"<!-\xff-",
        b"\xe2\x82\xe2\x82\xac",
    ];
    try_all(rt, &texts)
}

// Tries scripts that are longer than a block of sixteen bytes.
fn scripts(rt: &HostRuntime) -> io::Result<()> {
    let texts: [&[u8]; 5] = [
        b"if (a < b && c > d) { e(); }",
        b"document.write('<script></script>');",
        b"// <!-- </script </SCRIPT> <!-",
        b"0123456789abcde<!--f0123456789abcd</script>",
        b"x = '\xe2\x82\xac'; y = \"<!\"; z = '</scr' + 'ipt>'",
    ];
    try_all(rt, &texts)
}

// Runs them all.
fn main(rt: HostRuntime) -> io::Result<()> {
    comments(&rt)?;
    end_tags(&rt)?;
    characters(&rt)?;
    scripts(&rt)
}
