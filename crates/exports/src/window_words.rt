// The window's state as the words that a lent slice begins with.
ghost use Rattle.std.specs.Prelude.{◌≡◌, ◌≤◌, length};
ghost use Rattle.exports.specs.Words.{window_length, put};
ghost use Rattle.exports.specs.WindowCalls.{deferred_from, window_from, window_words};

use crate::words::flag;
use inflights::Inflights;

// Words of a window's state: start, count, cap, 1 if a smaller cap is deferred (else 0), the deferred cap (else 0).
pub const WINDOW: usize = 5;

// What two words say of a deferred cap: a first word of 0 is none.
#[tactic(auto, unfolding(crate::specs::WindowCalls::deferred_from))]
fn load_deferred(deferred: u64, cap: u64) -> Option<usize>
    ensures { result ≡ deferred_from deferred cap }
{
    if deferred == 0 {
        return None;
    }
    Some(cap as usize)
}

// The window whose state a slice begins with.
#[tactic(auto, unfolding(crate::specs::WindowCalls::window_from))]
pub fn load_window(window: &[u64]) -> Inflights
    requires { window_length ≤ length window.now }
    ensures { result ≡ window_from window.now }
{
    Inflights {
        start: window[0] as usize,
        count: window[1] as usize,
        cap: window[2] as usize,
        deferred: load_deferred(window[3], window[4]),
    }
}

// A window's state in place of the one that a slice begins with.
pub fn store_window(window: &mut [u64], after: Inflights)
    requires { window_length ≤ length window.old }
    ensures { window.new ≡ put window.old (window_words after) }
{
    window[0] = after.start as u64;
    window[1] = after.count as u64;
    window[2] = after.cap as u64;
    window[3] = flag(after.deferred.is_some());
    window[4] = after.deferred.unwrap_or(0) as u64;
}
