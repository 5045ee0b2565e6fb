// Raw script by parts: script_raw's encoder with a state, for scripts that are longer than a buffer. A part call writes what is settled and holds back
// the few bytes that more could still change. It copies the seam alone: what was held and the first eight bytes of the part, at most sixteen bytes.
// What the seam does not settle lies in the part, and is encoded there, sixteen bytes at a time.
// That a state is not finished, and how much of the seam is settled, stand in each contract: each state is used once, and every value of it is C's.
#![tactic(auto)]

ghost use Rattle.std.specs.Prelude.{MatchOption, true, false, ◌≡◌, [], ◌++◌, ℕ, ◌+◌, ◌≤◌, ◌<◌, ltb, length, take};
ghost use Rattle.rules.specs.Bytes.{over};
ghost use Rattle.rules.specs.Refusals.{part_success};
ghost use Rattle.rules.specs.Stream.{begins as begins_of, settled as settled_of, held_in, started, holding as holding_of, PartAllowed};
ghost use Rattle.plain.specs.Plain.{Without};
ghost use Rattle.stream.specs.Seams.{opens_name, Sound, Joined, Needed, Released};

use rules::{Answer, RawPart, RawState};

// The most bytes that are held.
const HELD: usize = 8;

// Returns the answer of a call that passed, by how many bytes it wrote and how many backslashes are among them; `same` is 0.
fn passed(length: usize, replaced: usize) -> Answer
    ensures { result ≡ part_success length replaced }
{
    Answer {
        status: rules::PASSED,
        length,
        same: 0,
        replaced,
        place: 0,
        left: 0,
        reason: 0,
    }
}

// Reports whether `rest` is the start of `name` or all of it, its letters in either case: the start of a pattern that goes on behind `name`.
fn opens_name(name: &[u8], rest: &[u8]) -> bool
    ensures { result ≡ opens_name name.now rest.now }
{
    for (i, b) in rest.iter().enumerate() {
        if name.len() <= i {
            return false;
        }
        if !base::prefix::is_either_case(name[i], *b) {
            return false;
        }
    }
    true
}

// Reports whether `rest` begins a character or an escaped pattern that more bytes could complete.
fn begins(rest: &[u8]) -> bool
    requires { 0 < length rest.now }
    ensures { result ≡ begins_of rest.now }
{
    utf8::is_cut(rest) || opens_name(b"<!-", rest) || opens_name(b"</script", rest)
}

// Returns how many bytes of a text are settled. At most its last eight are not.
fn settled(text: &[u8]) -> usize
    ensures { (result ≡ settled_of text.now) × (result ≤ length text.now) }
{
    let from = text.len().saturating_sub(HELD);
    for i in from..text.len() {
        if begins(&text[i..]) {
            return i;
        }
    }
    text.len()
}

// Returns where a text is broken: the length of its longest valid prefix, if what follows that is no start of a character.
fn broken_at(text: &[u8]) -> Option<usize>
    ensures { MatchOption result (Sound text.now (length text.now)) (λ r. Sound text.now r × (r < length text.now)) }
{
    let valid = utf8::valid_to(text);
    if valid == text.len() {
        return None;
    }
    if utf8::is_cut(&text[valid..]) {
        return None;
    }
    Some(valid)
}

// Returns the same; a text that is `clear`, ASCII without `<`, is not looked at.
fn broken_with(clear: bool, text: &[u8]) -> Option<usize>
    requires { clear ≡ true → Without 60 text.now }
    ensures { MatchOption result (Sound text.now (length text.now)) (λ r. Sound text.now r × (r < length text.now)) }
{
    if clear {
        return None;
    }
    broken_at(text)
}

// Returns a length that is above `room` exactly if the settled bytes of the seam and of the rest need more, and is then what they need. The result is
// at most a quarter longer than what is read, so that it is measured only if the room is short.
fn needed(seam: &[u8], s: usize, rest: &[u8], e: usize, room: usize) -> usize
    requires { (s ≤ length seam.now) × (e ≤ length rest.now) × (length seam.now ≤ 65536) × (length rest.now ≤ 65536) }
    ensures { Needed seam.now s rest.now e room result }
{
    let most = seam.len() + rest.len();
    if most + most / 4 <= room {
        return room;
    }
    encode_raw::measure_to(seam, s) + encode_raw::measure_to(rest, e)
}

// Writes what is settled of the seam and of the rest to `output`, if it has the room. A rest that is `clear`, ASCII without `<`, is copied.
fn release(seam: &[u8], s: usize, clear: bool, rest: &[u8], e: usize, output: &mut [u8]) -> Answer
    requires { (s ≤ length seam.now) × (e ≤ length rest.now) × (length seam.now ≤ 65536) × (length rest.now ≤ 65536) × (clear ≡ true → Without 60 rest.now) }
    ensures { Released seam.now s rest.now e output.old result output.new }
{
    let length = needed(seam, s, rest, e, output.len());
    if output.len() < length {
        return Answer::refusal(rules::NO_ROOM, length, 0);
    }
    let at = encode_raw::write_to(seam, s, output);
    let n = at + encode_raw::write_with(clear, rest, e, &mut output[at..]);
    passed(n, n - (s + e))
}

// Returns the state that holds `bytes` after `done` others.
fn holding(bytes: &[u8], done: usize, finished: bool) -> RawState
    requires { length bytes.now ≤ 8 }
    ensures { result ≡ holding_of bytes.now done finished }
{
    let mut held: [u8; 8] = [0; 8];
    let count = base::put(bytes, &mut held);
    RawState {
        held,
        count,
        done,
        finished,
    }
}

// Encodes a part within the limit: `seam` is what is held and the first bytes of the part, of which `s` are settled, and `rest` is what follows those.
fn joined(state: RawState, seam: &[u8], s: usize, rest: &[u8], output: &mut [u8]) -> RawPart
    requires { (s ≡ settled_of seam.now) × (s ≤ length seam.now) × (length seam.now ≤ 16) × (state.done + s + length rest.now ≤ 65536) }
    ensures { Joined state seam.now rest.now output.old result.answer result.state output.new }
{
    let done = state.done;
    if let Some(v) = broken_at(seam) {
        let answer = Answer::refusal(rules::NOT_UTF8, 0, done + v);
        return RawPart { answer, state };
    }
    let clear = plain::look::is_without(b'<', rest);
    if let Some(w) = broken_with(clear, rest) {
        let answer = Answer::refusal(rules::NOT_UTF8, 0, done + s + w);
        return RawPart { answer, state };
    }
    let e = settled(rest);
    let answer = release(seam, s, clear, rest, e, output);
    if answer.status != rules::PASSED {
        return RawPart { answer, state };
    }
    let next = holding(&rest[e..], done + s + e, false);
    RawPart {
        answer,
        state: next,
    }
}

// Reports whether `done` bytes, `count` more and `n` more are above the limit.
fn is_long(done: usize, count: usize, n: usize) -> bool
    ensures { result ≡ ltb 65536 (done + (count + n)) }
{
    rules::TEXT_LIMIT < done.saturating_add(count).saturating_add(n)
}

// Encodes a part within the limit, by its seam: the `count` bytes that are held and the first bytes of the part, at most eight.
fn sewn(state: RawState, count: usize, seam: &[u8], text: &[u8], output: &mut [u8]) -> RawPart
    requires { (seam.now ≡ held_in state ++ take 8 text.now) × (count ≡ length (held_in state)) × (count ≤ 8) × (state.finished ≡ false) × (state.done + (count + length text.now) ≤ 65536) }
    ensures { PartAllowed false state text.now output.old result.answer result.state output.new }
{
    let s = settled(seam);
    if text.len() <= HELD {
        return joined(state, seam, s, &seam[s..], output);
    }
    joined(state, seam, s, &text[s - count..], output)
}

// Writes the held bytes and the first bytes of the part, at most eight, to `seam`, and returns how many they are.
fn fill(held: &[u8], text: &[u8], seam: &mut [u8]) -> usize
    requires { (length held.now ≤ 8) × (length seam.old ≡ 16) }
    ensures { (result ≡ length (held.now ++ take 8 text.now)) × (seam.new ≡ over (held.now ++ take 8 text.now) seam.old) }
{
    let n = base::put(held, seam);
    n + base::put(&text[..text.len().min(HELD)], &mut seam[n..])
}

// Encodes a part in a state that is not finished.
fn begun(state: RawState, text: &[u8], output: &mut [u8]) -> RawPart
    requires { state.finished ≡ false }
    ensures { PartAllowed false state text.now output.old result.answer result.state output.new }
{
    let held = state.held_bytes();
    if is_long(state.done, held.len(), text.len()) {
        let answer = Answer::refusal(rules::TOO_LONG, 0, 0);
        return RawPart { answer, state };
    }
    let mut seam: [u8; 16] = [0; 16];
    let n = fill(held, text, &mut seam);
    sewn(state, held.len(), &seam[..n], text, output)
}

// Encodes a part: writes what is settled of what the state holds and the part, and returns the answer and the next state. A refused call writes nothing
// and returns the state as it was.
pub fn script_raw_part(state: RawState, text: &[u8], output: &mut [u8]) -> RawPart
    ensures { PartAllowed false state text.now output.old result.answer result.state output.new }
{
    if state.finished {
        let answer = Answer::refusal(rules::FINISHED, 0, 0);
        return RawPart { answer, state };
    }
    begun(state, text, output)
}

// Ends the script within the limit: writes what is held as the end of the text.
fn end_with(state: RawState, held: &[u8], output: &mut [u8]) -> RawPart
    requires { (held.now ≡ held_in state) × (length held.now ≤ 8) × (state.finished ≡ false) × (state.done + length held.now ≤ 65536) }
    ensures { PartAllowed true state [] output.old result.answer result.state output.new }
{
    let done = state.done;
    let valid = utf8::valid_to(held);
    if valid < held.len() {
        let answer = Answer::refusal(utf8::status(&held[valid..]), 0, done + valid);
        return RawPart { answer, state };
    }
    let length = encode_raw::measure(held);
    if output.len() < length {
        let answer = Answer::refusal(rules::NO_ROOM, length, 0);
        return RawPart { answer, state };
    }
    encode_raw::write(held, output);
    let answer = passed(length, length - held.len());
    let next = holding(b"", done + held.len(), true);
    RawPart {
        answer,
        state: next,
    }
}

// Ends the script in a state that is not finished.
fn ended(state: RawState, output: &mut [u8]) -> RawPart
    requires { state.finished ≡ false }
    ensures { PartAllowed true state [] output.old result.answer result.state output.new }
{
    let held = state.held_bytes();
    if is_long(state.done, held.len(), 0) {
        let answer = Answer::refusal(rules::TOO_LONG, 0, 0);
        return RawPart { answer, state };
    }
    end_with(state, held, output)
}

// Ends the script: writes what is held as the end of the text, and returns the answer and the finished state.
pub fn script_raw_finish(state: RawState, output: &mut [u8]) -> RawPart
    ensures { PartAllowed true state [] output.old result.answer result.state output.new }
{
    if state.finished {
        let answer = Answer::refusal(rules::FINISHED, 0, 0);
        return RawPart { answer, state };
    }
    ended(state, output)
}

// Returns the started state: nothing is given, nothing is held.
pub fn script_raw_start() -> RawState
    ensures { result ≡ started }
{
    RawState {
        held: [0; 8],
        count: 0,
        done: 0,
        finished: false,
    }
}
