// The text of `tally`: an input run in lent lists and a flow table of its own, and its report in a lent output.
// What the text is stands in tallytext/specs/Text.antt.
// The methods of `Sheet` take positions up to some millions, far past the end of every text (264,256 bytes): so no sum
// of a position wraps. A method moves the position on, so it takes a smaller one than those that it calls, and no bound
// is an invariant of the type. They are no `write!`: its contract says nothing of an `Err`, and so not when a text does
// not fit. Room is fixed, since there is no heap, by the project's rule. `tally` takes the lists one by one, as the
// calls do.
#![tactic(auto)]

ghost use Rattle.std.specs.Prelude.{◌≡◌, [], ◌∷◌, ◌++◌, ◌*◌, ◌≤◌, ◌<◌, length, replicate};
ghost use Rattle.leb128.specs.Answer.{writing_of};
ghost use Rattle.leb128.specs.Number.{write_at};
ghost use Rattle.decimal.specs.Decimal.{decimal_of};
ghost use Rattle.state.specs.State.{storage_of, state_of, no_flow};
ghost use Rattle.tallytext.specs.Text.{space, newline, spaced, tags_rising, line_of, lines_of, left_of, new_storage, tally_of};
ghost use Rattle.tallytext.specs.Replies.{last_line_in, report_in};
ghost use Rattle.report.specs.Sheet.{Puts, Listed};

use model::Flow;
use refusal::Refusal;
use replay::Replayed;
use state::Header;
use tagset::TagSet;

// What a run of `tally` gives back: the length of its text or that the output is too short, the header and the flow
// table, which is its own and so by value.
#[derive(Clone, Copy)]
pub struct Tallied {
    pub reply: Result<usize, Refusal>,
    pub header: Header,
    pub flows: [Flow; 512],
}

// Runs an input in a new tracker, and writes its text at the start of the output, or no byte where it does not fit.
pub fn text(bytes: &[u8], out: &mut [u8]) -> Result<usize, Refusal>
    ensures answer { writing_of result ≡ (tally_of bytes.now new_storage out.old).answer }
    ensures output { out.new ≡ (tally_of bytes.now new_storage out.old).output }
{
    let mut tags = [0u64; 1024];
    let mut policies = [0u64; 4096];
    let mut counts = [0u8; 256];
    tally(bytes, &mut tags, &mut policies, &mut counts, out).reply
}

// Runs an input in these lists and a new flow table, and writes its text at the start of the output, or no byte where
// it does not fit. Input above 16,384 bytes is not run.
pub fn tally(
    bytes: &[u8],
    tags: &mut [u64],
    policies: &mut [u64],
    counts: &mut [u8],
    out: &mut [u8],
) -> Tallied
    ensures answer { writing_of result.reply ≡ (tally_of bytes.now (storage_of tags.old policies.old counts.old (replicate 512 no_flow)) out.old).answer }
    ensures output { out.new ≡ (tally_of bytes.now (storage_of tags.old policies.old counts.old (replicate 512 no_flow)) out.old).output }
    ensures state { state_of result.header tags.new policies.new counts.new result.flows ≡ left_of bytes.now (storage_of tags.old policies.old counts.old (replicate 512 no_flow)) }
{
    let mut flows = [Flow::NONE; 512];
    let run = if 16384 < bytes.len() {
        Replayed::nothing(Refusal::ShortOutput, 16384)
    } else {
        replay::replay(bytes, tags, policies, counts, &mut flows)
    };
    let reply = write_report(out, tags, &run);
    Tallied {
        reply,
        header: run.header,
        flows,
    }
}

// Writes the report of a run at the start of the output, or no byte where it does not fit. Its length is found by
// putting it where there is no place.
fn write_report(out: &mut [u8], tags: &[u64], run: &Replayed) -> Result<usize, Refusal>
    requires { (run.now.header.containers ≤ 256) × (4 * run.now.header.containers ≤ length tags.now) }
    ensures answer { writing_of result ≡ (write_at out.old 0 (report_in run.now tags.now)).answer }
    ensures output { out.new ≡ (write_at out.old 0 (report_in run.now tags.now)).output }
{
    let mut order = [0u16; 256];
    ranking::rank_sets(tags, run.header.containers, &mut order);
    let order = &order[..run.header.containers as usize];
    let mut measure = Sheet {
        out: &mut [],
        at: 0,
    };
    measure.report(tags, order, run);
    if out.len() < measure.at {
        return Err(Refusal::ShortOutput);
    }
    let mut sheet = Sheet { out, at: 0 };
    sheet.report(tags, order, run);
    Ok(sheet.at)
}

// An output, and the position at which text goes on in it. The position goes on too where the output has no place.
#[derive(Drop)]
struct Sheet<'a> {
    out: &'a mut [u8],
    at: usize,
}

impl Sheet<'_> {
    // Puts a byte.
    fn byte(&mut self, b: u8)
        requires { self.old.at ≤ 4000000 }
        ensures { Puts self.old (b ∷ []) self.new }
    {
        // No get_mut: of the output after it the proof knows no byte, not even the one that is written.
        if self.at < self.out.len() {
            self.out[self.at] = b;
        }
        self.at += 1;
    }

    // Puts a number in decimal.
    fn decimal(&mut self, value: u64)
        requires { self.old.at ≤ 4000000 }
        ensures { Puts self.old (decimal_of value) self.new }
    {
        decimal::write_decimal(self.out, self.at, value);
        self.at += decimal::decimal_len(value);
    }

    // Puts a number in decimal, after a space.
    fn spaced(&mut self, value: u64)
        requires { self.old.at ≤ 3000000 }
        ensures { Puts self.old (space ∷ decimal_of value) self.new }
    {
        self.byte(b' ');
        self.decimal(value);
    }

    // Puts the bytes of a word.
    fn word(&mut self, word: &[u8])
        requires { (self.old.at ≤ 3000000) × (length word.now ≤ 100) }
        ensures { Puts self.old word.now self.new }
    {
        for b in word {
            self.byte(*b);
        }
    }

    // Puts the tags of a set, rising, each after a space.
    fn tags(&mut self, set: TagSet)
        requires { self.old.at ≤ 2000000 }
        ensures { Puts self.old (spaced (tags_rising set)) self.new }
    {
        // No `filter`: with it `tally` takes a sixth longer.
        for tag in 0..256 {
            if set.contains(tag) {
                self.spaced(u64::from(tag));
            }
        }
    }

    // Puts the line of a container: its number, the size of its set, its tags.
    fn line(&mut self, container: u16, set: TagSet)
        requires { (self.old.at ≤ 1500000) × (container < 1000) }
        ensures { Puts self.old (line_of container set) self.new }
    {
        self.decimal(u64::from(container));
        self.spaced(u64::from(set.size()));
        self.tags(set);
        self.byte(b'\n');
    }

    // Puts the lines of these containers.
    fn lines(&mut self, tags: &[u64], order: &[u16])
        requires { (self.old.at ≤ 1000000) × Listed tags.now order.now }
        ensures { Puts self.old (lines_of order.now tags.now) self.new }
    {
        for c in order {
            self.line(*c, tagstore::load_set(tags, usize::from(*c)));
        }
    }

    // Puts a line of two words, each with a number after it.
    fn pair(&mut self, first: &[u8], a: u64, second: &[u8], b: u64)
        requires { (self.old.at ≤ 1500000) × (length first.now ≤ 100) × (length second.now ≤ 100) }
        ensures { Puts self.old (first.now ++ spaced (a ∷ []) ++ second.now ++ spaced (b ∷ []) ++ (newline ∷ [])) self.new }
    {
        self.word(first);
        self.spaced(a);
        self.word(second);
        self.spaced(b);
        self.byte(b'\n');
    }

    // Puts the last line: what was done, or the refusal and where it is.
    #[tactic(auto, unfolding(tallytext::specs::Text::last_line, tallytext::specs::Text::events_line, tallytext::specs::Text::refused_line))]
    fn last_line(&mut self, run: &Replayed)
        requires { self.old.at ≤ 1500000 }
        ensures { Puts self.old (last_line_in run.now) self.new }
    {
        match run.stop {
            None => self.pair(b"events", run.events, b" gain", run.gain),
            Some(stop) => self.pair(
                b"refused",
                u64::from(u32::from(stop.refusal)),
                b" at",
                stop.byte as u64,
            ),
        }
    }

    // Puts the whole text: the lines of these containers, and the last line.
    fn report(&mut self, tags: &[u64], order: &[u16], run: &Replayed)
        requires { (self.old.at ≤ 1000000) × Listed tags.now order.now }
        ensures { Puts self.old (lines_of order.now tags.now ++ last_line_in run.now) self.new }
    {
        self.lines(tags, order);
        self.last_line(run);
    }
}
