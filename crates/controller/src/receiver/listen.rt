ghost use Rattle.std.specs.Prelude.{◌≡◌, ◌-◌, ◌≤◌, min, length};
ghost use Rattle.controller.specs.Listening.{hears, makes_ready};
ghost use Rattle.controller.specs.Receiver.{receiver};
ghost use Rattle.controller.specs.Settings.{settings as settings_of};
ghost use Rattle.frame.specs.Reader.{bytes_of, reading};
ghost use Rattle.model.specs.BitTime.{noticed, end_right, end_broken, times_out, counts};
ghost use Rattle.model.specs.Reading.{hunting};

use crate::receiver::Receiver;
use crate::settings::Settings;
use frame::{CRC_BYTES, Ending};

/// The ones count goes no higher.
const MAX_ONES: u16 = 510;

/// Whether the present filter takes a frame of these bytes; of what ends before source and destination it takes nothing.
#[tactic(auto, unfolding(model::specs::BitTime::noticed, model::specs::BitTime::wanted))]
fn is_wanted(settings: &Settings, frame: &[u8]) -> bool
    ensures { result ≡ noticed (settings_of settings.now) frame.now }
{
    match frame {
        [source, destination, ..] => settings.filters.accept(*source, *destination),
        _ => false,
    }
}

/// The place of a frame's last byte, as far as a flag tells it.
fn last_place(frame: &[u8]) -> u8
    requires { 1 ≤ length frame.now }
    ensures { result ≡ min (length frame.now - 1) 255 }
{
    u8::try_from(frame.len() - 1).unwrap_or(u8::MAX)
}

impl Receiver {
    /// The right end of a frame: if it is wanted, it fills a page without its CRC, or is lost.
    #[tactic(auto, using(crate::proofs::Endings::noticed_long), unfolding(model::specs::BitTime::end_right, model::specs::BitTime::filled))]
    fn end_right(&mut self, settings: &Settings) -> bool
        requires hunts { reading self.old.reader ≡ hunting }
        requires long { 2 ≤ length (bytes_of self.old.reader) }
        ensures after { receiver self.new ≡ end_right (settings_of settings.now) (bytes_of self.old.reader) (receiver self.old) }
        ensures made { result ≡ makes_ready (receiver self.old) (receiver self.new) }
    {
        let Receiver {
            ring,
            reader,
            rx_lost,
            ..
        } = self;
        let frame = reader.bytes();
        if !is_wanted(settings, frame) {
            return false;
        }
        let made_ready = ring.fill(&frame[..frame.len() - CRC_BYTES], 0);
        if !made_ready {
            *rx_lost = true;
        }
        made_ready
    }

    /// The broken end of a frame: if it is wanted, RX_ERROR sets, and SETTING says whether it is saved.
    #[tactic(auto, using(crate::proofs::Endings::noticed_two), unfolding(model::specs::BitTime::end_broken, model::specs::BitTime::filled))]
    fn end_broken(&mut self, settings: &Settings) -> bool
        requires { reading self.old.reader ≡ hunting }
        ensures after { receiver self.new ≡ end_broken (settings_of settings.now) (bytes_of self.old.reader) (receiver self.old) }
        ensures made { result ≡ makes_ready (receiver self.old) (receiver self.new) }
    {
        let Receiver {
            ring,
            reader,
            rx_error,
            ..
        } = self;
        let frame = reader.bytes();
        if !is_wanted(settings, frame) {
            return false;
        }
        *rx_error = true;
        settings.saves_broken() && ring.fill(frame, last_place(frame))
    }

    /// Ends the frame that is being read, if any, broken by time.
    #[tactic(auto, using(crate::proofs::Endings::timed))]
    fn time_out(&mut self, settings: &Settings) -> bool
        ensures after { receiver self.new ≡ times_out (settings_of settings.now) (receiver self.old).reading (receiver self.old) }
        ensures made { result ≡ makes_ready (receiver self.old) (receiver self.new) }
    {
        self.reader.close();
        self.end_broken(settings)
    }

    /// A receiver that was idle ends the frame that it is in, broken by time, and takes a 0 for a start bit; one that was
    /// not reads on. Whether a page was made ready.
    #[tactic(auto, unfolding(model::specs::BitTime::follows, model::specs::BitTime::end_broken, model::specs::BitTime::end_right))]
    pub(crate) fn listen(&mut self, settings: &Settings, level: bool) -> bool
        ensures after { receiver self.new ≡ hears level (settings_of settings.now) (receiver self.old) }
        ensures made { result ≡ makes_ready (receiver self.old) (receiver self.new) }
    {
        if self.has_waited(settings.idle_wait_len.into()) {
            let made_ready = self.time_out(settings);
            self.reader.open(level);
            return made_ready;
        }
        match self.reader.hear(level) {
            None => false,
            Some(Ending::Right) => self.end_right(settings),
            Some(Ending::Broken) => self.end_broken(settings),
        }
    }

    /// On a 1 the ones count rises, on a 0 it is 0.
    #[tactic(auto, unfolding(model::specs::BitTime::counts))]
    pub(crate) fn count(&mut self, level: bool)
        ensures { receiver self.new ≡ counts level (receiver self.old) }
    {
        self.ones = if level {
            self.ones.saturating_add(1).min(MAX_ONES)
        } else {
            0
        };
    }
}
