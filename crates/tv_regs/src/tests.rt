//! The transport's registers: what each shows at each width, and what stores to it do.

use crate::{Effect, QueueRegs, Regs};
use tv_base::Width;

const WIDTHS: [Width; 4] = [Width::B1, Width::B2, Width::B4, Width::B8];

/// VIRTIO_F_VERSION_1 and two further features.
const OFFERED: u64 = 0x1_0000_0220;

fn entropy() -> Regs {
    Regs::new(4, OFFERED, 2)
}

fn load(regs: &Regs, off: u16) -> u64 {
    regs.read(off, Width::B4, &[])
}

fn store(regs: &mut Regs, off: u16, value: u64) -> Effect {
    regs.write(off, Width::B4, value)
}

/// Stores the accepted features, both halves.
fn accept(regs: &mut Regs, features: u64) {
    for (select, half) in [(1, features >> 32), (0, features), (2, 0xffff_ffff)] {
        let _ = store(regs, 0x024, select);
        let _ = store(regs, 0x020, half);
    }
}

#[test]
fn each_register_shows_four_bytes_alone(rt: HostRuntime) {
    let mut regs = entropy();
    accept(&mut regs, OFFERED);
    for (off, value) in [
        (0x070, 0x8b),
        (0x030, 1),
        (0x038, 8),
        (0x044, 1),
        (0x014, 0),
    ] {
        let _ = store(&mut regs, off, value);
    }
    regs.changed();
    regs.used();
    for off in 0..0x100u16 {
        for width in WIDTHS {
            let expected = match (width, off) {
                (Width::B4, 0x000) => 0x7472_6976,
                (Width::B4, 0x004) => 2,
                (Width::B4, 0x008) => 4,
                (Width::B4, 0x00c) => 0x5654,
                (Width::B4, 0x010) => 0x220,
                (Width::B4, 0x034) => 256,
                (Width::B4, 0x044) => 1,
                (Width::B4, 0x060) => 3,
                (Width::B4, 0x070) => 0x8b,
                (Width::B4, 0x0fc) => 1,
                _ => 0,
            };
            assert_eq!(rt; regs.read(off, width, &[0xff; 16]), expected);
        }
    }
    for (select, features) in [(1, 1), (2, 0), (0x1_0000, 0), (0xffff_ffff, 0), (0, 0x220)] {
        let _ = store(&mut regs, 0x014, select);
        assert_eq!(rt; load(&regs, 0x010), features);
    }
    for (select, most) in [(0, 256), (2, 0), (0x1_0001, 0), (1, 256)] {
        let _ = store(&mut regs, 0x030, select);
        assert_eq!(rt; load(&regs, 0x034), most);
    }
}

#[test]
fn no_store_of_another_width_or_place_changes_anything(rt: HostRuntime) {
    for off in 0..0x100u16 {
        for width in WIDTHS {
            let is_stored = match (width, off) {
                (Width::B4, 0x014 | 0x020 | 0x024 | 0x030 | 0x038 | 0x044 | 0x050 | 0x064) => true,
                (Width::B4, 0x070 | 0x080 | 0x084 | 0x090 | 0x094 | 0x0a0 | 0x0a4) => true,
                _ => false,
            };
            if !is_stored {
                let mut regs = entropy();
                let _ = store(&mut regs, 0x038, 8);
                assert_eq!(rt; regs.write(off, width, 0x1_0000_0001), Effect::None);
                assert_eq!(rt; load(&regs, 0x010), 0x220);
                assert_eq!(rt; load(&regs, 0x034), 256);
                assert_eq!(rt; load(&regs, 0x060), 0);
                assert_eq!(rt; load(&regs, 0x0fc), 0);
                assert_eq!(rt; (regs.status(), regs.accepted()), (0, 0));
                assert_eq!(rt; store(&mut regs, 0x044, 1), Effect::Ready(0));
            }
        }
    }
}

#[test]
fn status_bits_are_set_where_they_may_be(rt: HostRuntime) {
    for (features, stores, status) in [
        (0, [1, 2, 8, 8], 3),
        (0x220, [1, 2, 8, 4], 3),
        (0x1_0000_0000, [1, 2, 8, 4], 15),
        (OFFERED, [0x0c, 0, 1, 2], 3),
        (OFFERED, [0x0c, 0x100, 0x1_0000_0000 + 0x70, 0x80], 0x8c),
        (0x1_0000_0021, [1, 2, 8, 0x0c], 3),
        (0x3_0000_0000, [1, 2, 8, 0x0c], 3),
        (OFFERED, [4, 8, 64, 16], 8),
        (OFFERED, [0xff, 1, 1, 1], 0x8f),
    ] {
        let mut regs = entropy();
        accept(&mut regs, features);
        for value in stores {
            let expected = if value == 0 {
                Effect::Reset
            } else {
                Effect::None
            };
            assert_eq!(rt; store(&mut regs, 0x070, value), expected);
            if value == 0 {
                assert_eq!(rt; (regs.status(), regs.accepted()), (0, 0));
            }
        }
        assert_eq!(rt; regs.status(), status);
        let frozen = regs.status() & 8 != 0;
        let before = regs.accepted();
        accept(&mut regs, 0x5_0000_0007);
        assert_eq!(rt;
            regs.accepted(),
            if frozen { before } else { 0x5_0000_0007 }
        );
    }
}

#[test]
fn a_queue_is_made_ready_where_it_can_be(rt: HostRuntime) {
    for (size, desc, driver, device, is_ready) in [
        (1, 0, 0, 0, true),
        (256, 0x8000_0000_0000_0010, 2, 0xffff_ffff_ffff_fffc, true),
        (0, 0, 0, 0, false),
        (3, 0, 0, 0, false),
        (512, 0, 0, 0, false),
        (0x1_0008, 0, 0, 0, false),
        (8, 8, 0, 0, false),
        (8, 0, 1, 0, false),
        (8, 0, 0, 2, false),
    ] {
        let mut regs = entropy();
        let _ = store(&mut regs, 0x030, 1);
        let _ = store(&mut regs, 0x038, size);
        for (off, address) in [(0x080, desc), (0x090, driver), (0x0a0, device)] {
            let _ = store(&mut regs, off + 4, address >> 32);
            let _ = store(&mut regs, off, address);
        }
        let effect = if is_ready {
            Effect::Ready(1)
        } else {
            Effect::None
        };
        assert_eq!(rt; store(&mut regs, 0x044, 2), Effect::None);
        assert_eq!(rt; store(&mut regs, 0x044, 3), effect);
        assert_eq!(rt; store(&mut regs, 0x044, 1), Effect::None);
        assert_eq!(rt; load(&regs, 0x044), u64::from(is_ready));
        if is_ready {
            for off in [0x038, 0x080, 0x084, 0x090, 0x094, 0x0a0, 0x0a4] {
                let _ = store(&mut regs, off, 4);
            }
            let queue = QueueRegs {
                number: 1,
                size: (size % 1000) as u16,
                desc,
                driver,
                device,
            };
            assert_eq!(rt; regs.copy().queue(1), Some(queue));
        }
        let _ = store(&mut regs, 0x044, 0xfffe);
        for number in [0, 1, 2, 0xffff] {
            assert_eq!(rt; regs.queue(number), None);
        }
        for (value, notified) in [
            (1, Effect::Notify(1)),
            (0xffff, Effect::Notify(0xffff)),
            (0x1_0000, Effect::None),
        ] {
            assert_eq!(rt; store(&mut regs, 0x050, value), notified);
        }
    }
}

#[test]
fn interrupts_are_acknowledged_bit_by_bit(rt: HostRuntime) {
    let mut regs = entropy();
    regs.used();
    regs.changed();
    for (value, left) in [(4, 3), (0x102, 1), (2, 1), (1, 0)] {
        let _ = store(&mut regs, 0x064, value);
        assert_eq!(rt; load(&regs, 0x060), left);
    }
    regs.broken();
    assert_eq!(rt; (load(&regs, 0x060), regs.status()), (2, 64));
    let reset = store(&mut regs, 0x070, 0);
    assert_eq!(rt;
        (reset, load(&regs, 0x060), regs.status()),
        (Effect::Reset, 0, 0)
    );
    assert_eq!(rt; load(&regs, 0x0fc), 1);
}

#[test]
fn a_configuration_is_loaded_at_each_width(rt: HostRuntime) {
    let mut regs = entropy();
    let config = [1, 2, 3, 4, 5, 6, 7, 8, 9];
    for (off, width, value) in [
        (0x100, Width::B1, 0x01),
        (0x107, Width::B2, 0x0908),
        (0x102, Width::B4, 0x0605_0403),
        (0x101, Width::B8, 0x0908_0706_0504_0302),
        (0x103, Width::B8, 0x0000_0908_0706_0504),
        (0x108, Width::B2, 0x09),
        (0x109, Width::B8, 0),
        (0xffff, Width::B8, 0),
    ] {
        assert_eq!(rt; regs.read(off, width, &config), value);
        assert_eq!(rt; regs.write(off, width, 0), Effect::Config);
    }
}
