// The words of a report for changes, states, events, origins and refusals.
#![tactic(auto)]

ghost use Rattle.std.specs.Prelude.{◌≡◌, ℕ, List};
ghost use Rattle.refusals.specs.Numbers.{number_of};
ghost use Rattle.watch_text.specs.Text.{written, put_all, right};
ghost use Rattle.watch_names.specs.Names.{change_name, state_name, event_name, refusal_name, effective_name, rise_name};

use origins::{EffectiveOrigin, RiseOrigin};
use refusals::Refusal;
use watch_text::{Line, put_right};

// What a report calls by a name.
pub trait Named {
    ghost name: { Self → List ℕ };

    fn name(&self) -> &'static [u8]
        ensures { result.now ≡ name self.now };
}

// The name at the right of a column. In one of width 0 it stands as it is.
pub fn put_name<T: Named>(line: &mut Line, named: &T, width: usize)
    ensures { written line.new ≡ put_all (written line.old) (right width (T.name named.now)) }
{
    put_right(line, named.name(), width);
}

// What became of a channel; true: it came alive. A bool, here and of a state, and no enum of two: a report has at hand whether the channel is alive.
#[derive(Clone, Copy, Debug, PartialEq, Eq)]
pub struct ChangeTo(pub bool);

impl Named for ChangeTo {
    ghost name = { λ x. change_name x.0 };

    fn name(&self) -> &'static [u8] {
        match self.0 {
            true => b"  rise  ",
            false => b"  drop  ",
        }
    }
}

// What a channel is; true: alive.
#[derive(Clone, Copy, Debug, PartialEq, Eq)]
pub struct State(pub bool);

impl Named for State {
    ghost name = { λ x. state_name x.0 };

    fn name(&self) -> &'static [u8] {
        match self.0 {
            true => b"  alive",
            false => b"  idle",
        }
    }
}

// The changes that were noted of a channel, by bits: 1 a rise, 2 a drop. A set in one byte, and no enum: hops add to it by `|`.
#[derive(Clone, Copy, Debug, PartialEq, Eq)]
pub struct Events(pub u8);

impl Named for Events {
    ghost name = { λ x. event_name x.0 };

    fn name(&self) -> &'static [u8] {
        match self.0 {
            0 => b"",
            1 => b"rise",
            2 => b"drop",
            _ => b"rise+drop",
        }
    }
}

// The words of document 02 for the rules that yield the floors.
impl Named for EffectiveOrigin {
    ghost name = { λ x. effective_name x };

    fn name(&self) -> &'static [u8] {
        match self {
            EffectiveOrigin::OwnQuartile(_) => b"own quartile",
            EffectiveOrigin::BlockPlus3(_) => b"block plus 3",
            EffectiveOrigin::Seed(_) => b"seed",
        }
    }
}

impl Named for RiseOrigin {
    ghost name = { λ x. rise_name x };

    fn name(&self) -> &'static [u8] {
        match self {
            RiseOrigin::EffectiveFloor(_) => b"effective floor",
            RiseOrigin::Block(_) => b"block",
            RiseOrigin::Seed(_) => b"seed",
        }
    }
}

// The trade's words of document 01 for a refusal, and behind them the words for document 02's.
impl Named for Refusal {
    ghost name = { λ r. refusal_name (number_of r) };

    fn name(&self) -> &'static [u8] {
        match self {
            Refusal::Band => b"band: no such number of channels",
            Refusal::StoreSize => b"store size",
            Refusal::Lengths => b"lengths: one to eight of 1 to 375 hops",
            Refusal::Level => b"level: -100 to 100 dB",
            Refusal::HopSize => b"hop size",
            Refusal::Garbled => b"garbled: a dB value is not a number on a slow hop",
            Refusal::Channel => b"channel: no such channel",
            Refusal::Mismatch => b"mismatch",
            Refusal::Unsound => b"unsound",
            Refusal::Cut => b"cut: the log ends in its header or in a hop",
            Refusal::Damaged =>
                b"damaged: the log has a channel too many, or one that did not change",
            Refusal::Span => b"span: 1 to 600 slow hops",
            Refusal::Unlike => b"unlike: the logs differ in channels or hops",
            Refusal::Segments => b"segments: no such segment",
            Refusal::Address => b"address: no such register",
            Refusal::Right => b"right: not for this role",
        }
    }
}

// A refusal by its number, which need be no refusal's.
#[derive(Clone, Copy, Debug, PartialEq, Eq)]
pub struct RefusalNumber(pub u16);

impl Named for RefusalNumber {
    ghost name = { λ x. refusal_name x.0 };

    fn name(&self) -> &'static [u8] {
        match self.0 {
            1 => Refusal::Band.name(),
            2 => Refusal::StoreSize.name(),
            3 => Refusal::Lengths.name(),
            4 => Refusal::Level.name(),
            5 => Refusal::HopSize.name(),
            6 => Refusal::Garbled.name(),
            7 => Refusal::Channel.name(),
            8 => Refusal::Mismatch.name(),
            9 => Refusal::Unsound.name(),
            10 => Refusal::Cut.name(),
            11 => Refusal::Damaged.name(),
            12 => Refusal::Span.name(),
            13 => Refusal::Unlike.name(),
            14 => Refusal::Segments.name(),
            15 => Refusal::Address.name(),
            16 => Refusal::Right.name(),
            _ => b"no refusal has this number",
        }
    }
}
