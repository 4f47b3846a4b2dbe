// What joins a regulator, what it lets out, and how its level rises.
ghost use Rattle.std.specs.Prelude.{◌≡◌, ◌≤◌, min, length, is_ok, IfErr};
ghost use Rattle.cabinet.specs.Model.{frame_in};
ghost use Rattle.regulator.specs.Regulators.{fresh_regulator, held, join_after, join_answer, out_after, out_answer, rise_after};

use super::{PLACES, Regulator};
use service::Frame;

impl Regulator {
    // An empty regulator, full whatever its burst: a level counts as the burst where it is more.
    pub fn new() -> Regulator
        ensures { result ≡ fresh_regulator }
    {
        Regulator {
            level: u32::MAX,
            frames: [Frame::default(); PLACES],
            waiting: 0,
        }
    }

    // How many frames wait.
    pub fn len(&self) -> usize
        ensures value { result ≡ length (held self.now).line }
        ensures capped { result ≡ min self.now.waiting 16 }
        ensures few { result ≤ 16 }
    {
        self.waiting.min(PLACES)
    }

    // The i-th frame that waits, counted from the first.
    pub fn frame(&self, i: usize) -> Option<Frame>
        ensures { result ≡ frame_in (held self.now).line i }
    {
        self.frames[..self.len()].get(i).copied()
    }

    // The frame joins at the end of the line; or, where 16 wait, it is turned away.
    pub fn join(&mut self, frame: Frame) -> Result<(), Frame>
        ensures answer { is_ok result ≡ join_answer (held self.old) }
        ensures back { IfErr result (λ x. x ≡ frame) }
        ensures after { held self.new ≡ join_after (held self.old) frame }
    {
        let n = self.len();
        if n >= PLACES {
            return Err(frame);
        }
        self.frames[n] = frame;
        self.waiting = n + 1;
        Ok(())
    }

    // The first frame, if the level, at most the burst, covers its length; that lowers the level by it.
    pub fn let_out(&mut self, burst: u32) -> Option<Frame>
        ensures answer { result ≡ out_answer burst (held self.old) }
        ensures after { held self.new ≡ out_after burst (held self.old) }
    {
        let first = self.frame(0)?;
        let level = self.level.min(burst);
        if first.len > level {
            return None;
        }
        self.level = level - first.len;
        self.waiting = self.len() - 1;
        self.frames.rotate_left(1);
        Some(first)
    }

    // A slot later: the level has risen by the rate, at most to the burst.
    pub fn rise(&mut self, rate: u32, burst: u32)
        ensures { held self.new ≡ rise_after (held self.old) rate burst }
    {
        let level = (u64::from(self.level) + u64::from(rate)).min(u64::from(burst));
        self.level = level as u32;
    }
}
