//! The registers of one queue.

ghost use Rattle.std.specs.Prelude.{◌≡◌};
ghost use Rattle.tv_transport.specs.Registers.{half, is_size, can_be_ready, with_low, with_high, laid_out};

use tv_transport::{QueueState, Register};

/// The worth of the high half of a number of 8 bytes.
const HIGH: u64 = 1 << 32;

/// The half of a number that a select names: 0 the low one, 1 the high one, and no other.
pub fn half(select: u32, number: u64) -> u64
    ensures { result ≡ half select number }
{
    match select {
        0 => number % HIGH,
        1 => number / HIGH,
        _ => 0,
    }
}

/// The number with another low half.
pub fn with_low(number: u64, value: u32) -> u64
    ensures { result ≡ with_low number value }
{
    number / HIGH * HIGH + u64::from(value)
}

/// The number with another high half.
pub fn with_high(number: u64, value: u32) -> u64
    ensures { result ≡ with_high number value }
{
    u64::from(value) * HIGH + number % HIGH
}

/// Whether a queue may have this size: it is a power of two up to 256.
fn is_size(size: u32) -> bool
    ensures { result ≡ is_size size }
{
    matches!(size, 1 | 2 | 4 | 8 | 16 | 32 | 64 | 128 | 256)
}

/// Whether the queue can be made ready: it may have its size, and its areas are aligned.
pub fn can_be_ready(queue: &QueueState) -> bool
    ensures { result ≡ can_be_ready queue.now }
{
    is_size(queue.size) && queue.desc % 16 == 0 && queue.driver % 2 == 0 && queue.device % 4 == 0
}

/// The queue after a store to one of the registers of its size and areas.
pub fn laid_out(queue: &QueueState, register: Register, value: u32) -> QueueState
    ensures queue { result ≡ laid_out queue.now register value }
    ensures same { result.is_ready ≡ queue.now.is_ready }
{
    let mut queue = *queue;
    match register {
        Register::QueueNum => queue.size = value,
        Register::QueueDescLow => queue.desc = with_low(queue.desc, value),
        Register::QueueDescHigh => queue.desc = with_high(queue.desc, value),
        Register::QueueDriverLow => queue.driver = with_low(queue.driver, value),
        Register::QueueDriverHigh => queue.driver = with_high(queue.driver, value),
        Register::QueueDeviceLow => queue.device = with_low(queue.device, value),
        Register::QueueDeviceHigh => queue.device = with_high(queue.device, value),
        _ => {}
    }
    queue
}

/// The queue made ready or not ready.
pub fn with_readiness(queue: &QueueState, is_ready: bool) -> QueueState
    ensures { result ≡ (record queue.now { is_ready = is_ready }) }
{
    let mut queue = *queue;
    queue.is_ready = is_ready;
    queue
}
