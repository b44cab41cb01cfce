//! Loads of a device's configuration.

ghost use Rattle.std.specs.Prelude.{◌≡◌, ◌<◌, ◌^◌};
ghost use Rattle.tv_transport.specs.Registers.{config_byte, config_half, config_word, config_load};

use tv_base::Width;

/// The byte at an offset; 0 past the end.
fn byte(config: &[u8], at: usize) -> u64
    ensures value { result ≡ config_byte config.now at }
    ensures bound { result < 2 ^ 8 }
{
    match config.get(at) {
        Some(byte) => u64::from(*byte),
        None => 0,
    }
}

/// The two bytes from an offset on.
fn half(config: &[u8], at: usize) -> u64
    requires near { at < 2 ^ 32 }
    ensures value { result ≡ config_half config.now at }
    ensures bound { result < 2 ^ 16 }
{
    byte(config, at) + (byte(config, at + 1) << 8)
}

/// The four bytes from an offset on.
fn word(config: &[u8], at: usize) -> u64
    requires near { at < 2 ^ 31 }
    ensures value { result ≡ config_word config.now at }
    ensures bound { result < 2 ^ 32 }
{
    half(config, at) + (half(config, at + 2) << 16)
}

/// `width` bytes of a device's configuration from an offset on, least first. Those past its end are 0.
pub fn load(config: &[u8], width: Width, at: u16) -> u64
    ensures { result ≡ config_load config.now width at }
{
    let at = usize::from(at);
    match width {
        Width::B1 => byte(config, at),
        Width::B2 => half(config, at),
        Width::B4 => word(config, at),
        Width::B8 => word(config, at) + (word(config, at + 4) << 32),
    }
}
