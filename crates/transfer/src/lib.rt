// What an admitted command does with its blocks: judging, comparing, and moving.
#![tactic(auto)]

ghost use Rattle.std.specs.Prelude.{◌≡◌, ◌+◌, ◌≤◌, length};
ghost use Rattle.words.specs.Parts.{put};
ghost use Rattle.segment.specs.Places.{span_of};
ghost use Rattle.transfer.specs.Transfer.{whole, judged_on, judged, compared, verdict, handed, received};
ghost use Rattle.transfer.specs.Inner.{Shaped, Sided, Fitted, cut_of, Paired};

use answer::Answer;
use command::Command;
use comparison::Cut;
use guard::Table;
use segment::Segment;
use sides::Side;

// A command, and the segment that its blocks are of.
#[derive(Clone, Copy)]
pub struct Transfer {
    pub segment: Segment,
    pub command: Command,
    pub ghost shaped: { Shaped segment.numbers command },
}

impl Transfer {
    // Whether blocks are moved whole: with their fields, or of type 0, which has no fields.
    fn whole(self) -> bool
        ensures { result ≡ whole self.segment.numbers self.command }
    {
        self.segment.numbers.kind == 0 || self.command.code != 0
    }

    // The first wrong interval of the blocks `s` of one side.
    fn judge_on(self, t: &Table, side: Side, s: &[u8]) -> Answer
        requires { Sided side self.segment.numbers self.command (length s.now) }
        ensures { result ≡ judged_on side self.segment.numbers self.command s.now }
    {
        let count = sides::checked_on(side, self.segment.numbers, self.command);
        if count == 0 {
            return Ok(());
        }
        let rules = rules::rules(side, self.segment, self.command);
        let start = rules::start(self.segment.numbers, self.command);
        judge::judge_blocks(t, rules, start, count as usize, s)
    }

    // The first wrong interval of what is sent, else of what is stored.
    pub fn judge(self, t: &Table, sent: &[u8], stored: &[u8]) -> Answer
        requires { (Sided Side.Sent self.segment.numbers self.command (length sent.now)) × (Sided Side.Stored self.segment.numbers self.command (length stored.now)) }
        ensures { result ≡ judged self.segment.numbers self.command sent.now stored.now }
    {
        self.judge_on(t, Side::Sent, sent)?;
        self.judge_on(t, Side::Stored, stored)
    }

    // What of a stored block is compared: all of it, or of each interval the data.
    fn cut(self) -> Cut
        ensures { result ≡ cut_of self.segment.numbers self.command }
    {
        if self.whole() {
            let stored = self.segment.stored();
            return Cut {
                pieces: 1,
                size: stored,
                stride: stored,
            };
        }
        let size = self.segment.size();
        Cut {
            pieces: self.segment.intervals(),
            size,
            stride: size + 8,
        }
    }

    // The first of the transfer's blocks that is not the one sent; good for a command that does not compare.
    fn compare(self, sent: &[u8], stored: &[u8]) -> Answer
        requires { Paired self.segment.numbers self.command (length sent.now) (length stored.now) }
        ensures { result ≡ compared self.segment.numbers self.command sent.now stored.now }
    {
        let c = self.command;
        if !command::compares(c) {
            return Ok(());
        }
        comparison::compare_blocks(self.cut(), c.address, c.length as usize, stored, sent)
    }

    // The verdict on a transfer: all of its intervals are judged, and only then its blocks compared.
    pub fn verdict(self, t: &Table, sent: &[u8], stored: &[u8]) -> Answer
        requires sided { (Sided Side.Sent self.segment.numbers self.command (length sent.now)) × (Sided Side.Stored self.segment.numbers self.command (length stored.now)) }
        requires paired { Paired self.segment.numbers self.command (length sent.now) (length stored.now) }
        ensures { result ≡ verdict self.segment.numbers self.command sent.now stored.now }
    {
        self.judge(t, sent, stored)?;
        self.compare(sent, stored)
    }

    // Fills the buffer with the transfer's blocks, or their user data.
    pub fn hand_out(self, s: &[u8], buffer: &mut [u8])
        requires s_len { length s.now ≡ span_of self.segment.numbers self.command.length }
        requires fitted { Fitted self.segment.numbers self.command (length buffer.old) }
        ensures { buffer.new ≡ handed self.segment.numbers self.command s.now }
    {
        if self.whole() {
            words::copy(buffer, s);
            return;
        }
        let size = self.segment.size();
        let count = self.command.length as usize * self.segment.intervals();
        blocks::take_user_data(buffer, s, size, count);
    }

    // Overwrites the transfer's blocks of the segment, from `at` on, with what was received.
    pub fn store(self, t: &Table, segment: &mut [u8], at: usize, buffer: &[u8])
        requires length_in_bounds { at + span_of self.segment.numbers self.command.length ≤ length segment.old }
        requires fitted { Fitted self.segment.numbers self.command (length buffer.now) }
        ensures { segment.new ≡ put at (received self.segment.numbers self.command buffer.now) segment.old }
    {
        let count = self.command.length as usize;
        if self.whole() {
            blocks::store_blocks(segment, at, buffer, self.segment.stored(), count);
            return;
        }
        let size = self.segment.size();
        let intervals = self.segment.intervals();
        let marks = marks::marks(self.segment, self.command);
        insertion::insert_blocks(t, segment, at, buffer, size, intervals, count, marks);
    }
}
