// Which write is taken next.
ghost use Rattle.std.specs.Prelude.{◌≡◌, ◌<◌, [], length, MatchOption};
ghost use Rattle.bottoms.specs.Channels.{oldest, picked};

use device::Write;

pub(crate) const CHANNELS: usize = 4;

// The place of the oldest write on a channel.
fn oldest_on(queue: &[Write], channel: usize) -> Option<usize>
    ensures { result ≡ oldest channel queue.now }
{
    queue.iter().position(|w| w.block % CHANNELS == channel)
}

// The place of the oldest write of the first channel that has one, from this channel on.
pub(crate) fn pick(queue: &[Write], next: usize) -> Option<usize>
    requires { next < 4 }
    ensures value { result ≡ picked queue.now next }
    ensures found { MatchOption result (queue.now ≡ []) (λ k. k < length queue.now) }
{
    (0..CHANNELS).find_map(|step| oldest_on(queue, (next + step) % CHANNELS))
}
