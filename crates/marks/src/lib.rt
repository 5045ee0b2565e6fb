// What the quick readers share: a list of the offsets of a text's units, kept while the text is measured and used while the result is written; and the copying
// of what stands between two units.
// The list is an array on the caller's stack, with the count of what it holds beside: there is no heap, and a slice of what is kept would be cut anew at each unit.
#![tactic(auto)]

ghost use Rattle.std.specs.Prelude.{◌≡◌, ◌-◌, ◌≤◌, ◌<◌, length, set, take};
ghost use Rattle.base.specs.Places.{part};

// The bytes that are copied for a run of as many or fewer.
const AHEAD: usize = 16;

// Keeps the offset of a unit, if the list has room for one more.
pub fn keep(places: &mut [u16], k: usize, at: usize)
    requires { at < 65536 }
    ensures { places.new ≡ set places.old k at }
{
    if k < places.len() {
        places[k] = at as u16;
    }
}

// Copies the text from `from` up to `mark` to the start of `output`, and returns how many bytes these are. A short run is copied as sixteen bytes, where there
// are as many, so that no branch has to guess its length; what is copied past it is overwritten by what follows.
pub fn put_ahead(text: &[u8], from: usize, mark: usize, output: &mut [u8]) -> usize
    requires { (from ≤ mark) × (mark ≤ length text.now) × (mark - from ≤ length output.old) }
    ensures { (result ≡ mark - from) × (length output.new ≡ length output.old) × (take result output.new ≡ part text.now from mark) }
{
    if mark == from {
        return 0;
    }
    if mark - from <= AHEAD && AHEAD <= output.len().min(text.len() - from) {
        base::put_short(&text[from..from + AHEAD], output);
        return mark - from;
    }
    base::put_run(&text[from..mark], output)
}
