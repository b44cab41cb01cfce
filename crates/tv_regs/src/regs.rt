//! The registers of a device.

ghost use Rattle.std.specs.Prelude.{◌≡◌, ◌≤◌, ◌<◌, ◌^◌, ℕ, length, replicate, IfSome, IsSome};
ghost use Rattle.tv_virtio.specs.Queue.{IsServable};
ghost use Rattle.tv_regs.specs.Effects.{IsOfQueue};
ghost use Rattle.tv_transport.specs.declared.registers.Register.TheVariants as register;
ghost use Rattle.tv_transport.specs.Registers.{no_queue, first_registers, reset_registers, selected, size_most, readiness, shown, transport_load, accepted_stored, can_accept, laid_out_in, ready_stored, notified, stored, transport_store, broken, config_changed, buffer_used, queue_regs, with_selected, IsReadyQueue, IsSound};

use crate::config;
use crate::map::register_at;
use crate::queue::{can_be_ready, half, laid_out, with_high, with_low, with_readiness};
use crate::status::{Interrupts, Status};
use arrayvec::ArrayVec;
use bitflags::Flags;
use std::marker::Model;
use tv_base::{QUEUE_SIZE, Width};
use tv_transport::{Effect, QueueState, Register, VERSION_1};
use tv_virtio::QueueRegs;

/// Queues of a device at most.
const QUEUES: usize = 255;

/// Where a device's configuration begins.
const CONFIG: u16 = 0x100;

/// What the register MagicValue shows, `virt`.
const MAGIC: u64 = 0x7472_6976;

/// What the register VendorID shows, `TV`.
const VENDOR: u64 = 0x5654;

/// A queue that the driver has not set up.
const NO_QUEUE: QueueState = QueueState {
    size: 0,
    is_ready: false,
    desc: 0,
    driver: 0,
    device: 0,
};

/// The registers of a device. Every load and store is answered, whatever its offset and width.
#[derive(Drop)]
pub struct Regs {
    /// The device's type.
    kind: u32,
    /// The features that the device offers.
    offered: u64,
    /// Which half of the offered features the driver sees.
    device_select: u32,
    /// Which half of the accepted features the driver stores.
    driver_select: u32,
    /// The queue whose registers the driver sees.
    queue_select: u32,
    /// The features that the driver accepted.
    accepted: u64,
    status: Status,
    interrupt: Interrupts,
    /// How often the configuration changed, modulo 2^32.
    generation: u32,
    queues: ArrayVec<QueueState, QUEUES>,
}

impl Model for Regs {
    ghost use Rattle.std.specs.Prelude.{All};
    ghost use Rattle.tv_transport.specs.Registers.{Registers, IsSound};

    ghost Value = { Registers };

    ghost view = { λ r. record { kind = r.kind; offered = r.offered; device_select = r.device_select; driver_select = r.driver_select; queue_select = r.queue_select; accepted = r.accepted; status = r.status.0; interrupt = r.interrupt.0; generation = r.generation; queues = r.queues.items } };

    ghost invariant = { λ r. All IsSound r.queues.items };
}

impl Regs {
    /// The registers of a device of a type (VIRTIO 1.2, section 5) that offers these features and has so many queues.
    pub fn new(kind: u32, offered: u64, queues: u8) -> Regs
        ensures { result ≡ first_registers kind offered queues }
    {
        Regs {
            kind,
            offered,
            device_select: 0,
            driver_select: 0,
            queue_select: 0,
            accepted: 0,
            status: Status::empty(),
            interrupt: Interrupts::empty(),
            generation: 0,
            queues: fresh_queues(queues),
        }
    }

    /// The same registers again. It takes no memory.
    pub fn copy(&self) -> Regs
        ensures { result ≡ self.now }
    {
        let mut queues = ArrayVec::new();
        match queues.try_extend_from_slice(&self.queues) {
            Ok(()) => {}
            Err(_) => unreachable!(),
        }
        Regs {
            kind: self.kind,
            offered: self.offered,
            device_select: self.device_select,
            driver_select: self.driver_select,
            queue_select: self.queue_select,
            accepted: self.accepted,
            status: self.status,
            interrupt: self.interrupt,
            generation: self.generation,
            queues,
        }
    }

    /// The value of a load of `width` bytes at an offset; `config` is the device's configuration.
    pub fn read(&self, off: u16, width: Width, config: &[u8]) -> u64
        ensures { result ≡ transport_load self.now config.now width off }
    {
        if off >= CONFIG {
            return config::load(config, width, off - CONFIG);
        }
        match (width, register_at(off)) {
            (Width::B4, Some(register)) => self.shown(register),
            _ => 0,
        }
    }

    /// What a register shows; those that are only stored to show 0.
    fn shown(&self, register: Register) -> u64
        ensures { result ≡ shown self.now register }
    {
        match register {
            Register::MagicValue => MAGIC,
            Register::Version => 2,
            Register::DeviceId => u64::from(self.kind),
            Register::VendorId => VENDOR,
            Register::DeviceFeatures => half(self.device_select, self.offered),
            Register::QueueNumMax => self.size_most(),
            Register::QueueReady => self.readiness(),
            Register::InterruptStatus => u64::from(self.interrupt.bits()),
            Register::Status => u64::from(self.status.bits()),
            Register::ConfigGeneration => u64::from(self.generation),
            _ => 0,
        }
    }

    /// How many descriptors the selected queue may have; 0 where there is no such queue.
    fn size_most(&self) -> u64
        ensures { result ≡ size_most (selected self.now) }
    {
        match self.queues.get(self.queue_select as usize) {
            Some(_) => u64::from(QUEUE_SIZE),
            None => 0,
        }
    }

    /// 1 where the selected queue is ready, else 0.
    fn readiness(&self) -> u64
        ensures { result ≡ readiness (selected self.now) }
    {
        match self.queues.get(self.queue_select as usize) {
            Some(queue) => u64::from(queue.is_ready),
            None => 0,
        }
    }

    /// Stores the low `width` bytes of a value at an offset, and gives what this means for the device. No store changes how
    /// many queues there are.
    pub fn write(&mut self, off: u16, width: Width, value: u64) -> Effect
        ensures registers { self.new ≡ (transport_store self.old width off value).registers }
        ensures effect { result ≡ (transport_store self.old width off value).effect }
        ensures there { IsOfQueue (length self.old.queues) result }
        ensures queues { length self.new.queues ≡ length self.old.queues }
    {
        if off >= CONFIG {
            return Effect::Config;
        }
        match (width, register_at(off)) {
            (Width::B4, Some(register)) => self.store(register, (value % (1 << 32)) as u32),
            _ => Effect::None,
        }
    }

    /// Stores to a register; one that is only loaded stays.
    fn store(&mut self, register: Register, value: u32) -> Effect
        ensures registers { self.new ≡ (stored self.old register value).registers }
        ensures effect { result ≡ (stored self.old register value).effect }
        ensures there { IsOfQueue (length self.old.queues) result }
        ensures queues { length self.new.queues ≡ length self.old.queues }
    {
        match register {
            Register::DeviceFeaturesSel => self.device_select = value,
            Register::DriverFeatures => self.accept(value),
            Register::DriverFeaturesSel => self.driver_select = value,
            Register::QueueSel => self.queue_select = value,
            Register::QueueReady => return self.make_ready(value),
            Register::QueueNotify => return notified(value),
            Register::InterruptAck => self.acknowledge(value),
            Register::Status => return self.set_status(value),
            Register::QueueNum
            | Register::QueueDescLow
            | Register::QueueDescHigh
            | Register::QueueDriverLow
            | Register::QueueDriverHigh
            | Register::QueueDeviceLow
            | Register::QueueDeviceHigh => self.lay_out(register, value),
            _ => {}
        }
        Effect::None
    }

    /// Stores the selected half of the accepted features, which stay once FEATURES_OK is set.
    fn accept(&mut self, value: u32)
        ensures { self.new ≡ (record self.old { accepted = accepted_stored self.old value }) }
    {
        if self.status.contains(Status::FEATURES_OK) {
            return;
        }
        match self.driver_select {
            0 => self.accepted = with_low(self.accepted, value),
            1 => self.accepted = with_high(self.accepted, value),
            _ => {}
        }
    }

    /// Clears bits of the interrupt status.
    fn acknowledge(&mut self, value: u32)
        ensures { self.new ≡ (stored self.old register.InterruptAck value).registers }
    {
        let bits = Interrupts::from_bits_retain((value % 256) as u8);
        self.interrupt.remove(bits);
    }

    /// Resets the device at 0, and else sets those of the value's bits in the status that may be set.
    fn set_status(&mut self, value: u32) -> Effect
        ensures registers { self.new ≡ (stored self.old register.Status value).registers }
        ensures effect { result ≡ (stored self.old register.Status value).effect }
        ensures there { IsOfQueue (length self.old.queues) result }
        ensures queues { length self.new.queues ≡ length self.old.queues }
    {
        if value == 0 {
            self.reset();
            return Effect::Reset;
        }
        let asked = Status::from_bits_retain((value % 256) as u8);
        self.status = self.status.stored(asked, self.can_accept());
        Effect::None
    }

    /// Whether the accepted features can be used: they are among the offered ones and hold [`VERSION_1`].
    fn can_accept(&self) -> bool
        ensures { result ≡ can_accept self.now.accepted self.now.offered }
    {
        self.accepted & self.offered == self.accepted && self.accepted & VERSION_1 == VERSION_1
    }

    /// Makes all as at the start but for the generation.
    fn reset(&mut self)
        ensures registers { self.new ≡ reset_registers self.old }
        ensures queues { length self.new.queues ≡ length self.old.queues }
    {
        self.device_select = 0;
        self.driver_select = 0;
        self.queue_select = 0;
        self.accepted = 0;
        self.status = Status::empty();
        self.interrupt = Interrupts::empty();
        let count = self.queues.len() as u8;
        self.queues = fresh_queues(count);
    }

    /// The registers of the selected queue, if there is one.
    fn selected(&self) -> Option<QueueState>
        ensures queue { result ≡ selected self.now }
        ensures there { IsSome result → self.now.queue_select < length self.now.queues }
        ensures near { IsSome result → self.now.queue_select < 2 ^ 16 }
        ensures sound { IfSome result IsSound }
    {
        let queue = self.queues.get(self.queue_select as usize)?;
        Some(*queue)
    }

    /// Replaces the registers of the selected queue, which is there.
    fn set_selected(&mut self, queue: QueueState)
        requires there { self.old.queue_select < length self.old.queues }
        requires sound { IsSound queue }
        ensures registers { self.new ≡ with_selected self.old queue }
        ensures queues { length self.new.queues ≡ length self.old.queues }
    {
        self.queues[self.queue_select as usize] = queue;
    }

    /// Stores to a register of the selected queue's size and areas, which stay while the queue is ready.
    fn lay_out(&mut self, register: Register, value: u32)
        ensures registers { self.new ≡ laid_out_in self.old (selected self.old) register value }
        ensures queues { length self.new.queues ≡ length self.old.queues }
    {
        let Some(queue) = self.selected() else {
            return;
        };
        if !queue.is_ready {
            self.set_selected(laid_out(&queue, register, value));
        }
    }

    /// Makes the selected queue ready or not ready, by the value's bit 0.
    fn make_ready(&mut self, value: u32) -> Effect
        ensures registers { self.new ≡ (ready_stored self.old (selected self.old) value).registers }
        ensures effect { result ≡ (ready_stored self.old (selected self.old) value).effect }
        ensures there { IsOfQueue (length self.old.queues) result }
        ensures queues { length self.new.queues ≡ length self.old.queues }
    {
        let Some(queue) = self.selected() else {
            return Effect::None;
        };
        if value % 2 == 0 {
            self.set_selected(with_readiness(&queue, false));
            return Effect::None;
        }
        if queue.is_ready || !can_be_ready(&queue) {
            return Effect::None;
        }
        self.set_selected(with_readiness(&queue, true));
        Effect::Ready(self.queue_select as u16)
    }

    /// Says that the device needs a reset.
    pub fn broken(&mut self)
        ensures { self.new ≡ broken self.old }
    {
        self.status.insert(Status::DEVICE_NEEDS_RESET);
        self.interrupt.insert(Interrupts::CONFIG_CHANGE);
    }

    /// Says that the device's configuration changed.
    pub fn changed(&mut self)
        ensures { self.new ≡ config_changed self.old }
    {
        self.generation = self.generation.wrapping_add(1);
        self.interrupt.insert(Interrupts::CONFIG_CHANGE);
    }

    /// Says that the device used a buffer.
    pub fn used(&mut self)
        ensures { self.new ≡ buffer_used self.old }
    {
        self.interrupt.insert(Interrupts::USED_BUFFER);
    }

    /// Where the queue with a number lies; `None` exactly where there is no such queue or it isn't ready.
    pub fn queue(&self, number: u16) -> Option<QueueRegs>
        ensures queue { result ≡ queue_regs self.now number }
        ensures ready { IfSome result (IsReadyQueue (length self.now.queues)) }
        ensures servable { length self.now.queues ≤ 3 → IfSome result IsServable }
    {
        let queue = self.queues.get(usize::from(number))?;
        if !queue.is_ready {
            return None;
        }
        Some(QueueRegs {
            number,
            size: queue.size as u16,
            desc: queue.desc,
            driver: queue.driver,
            device: queue.device,
        })
    }

    /// The status register.
    pub fn status(&self) -> u8
        ensures { result ≡ self.now.status }
    {
        self.status.bits()
    }

    /// The features that the driver accepted.
    pub fn accepted(&self) -> u64
        ensures { result ≡ self.now.accepted }
    {
        self.accepted
    }
}

/// So many queues that the driver has not set up.
#[tactic(auto, using(crate::proofs::Queues::fresh_some))]
fn fresh_queues(count: u8) -> ArrayVec<QueueState, QUEUES>
    ensures { result.items ≡ replicate count no_queue }
{
    let mut queues = ArrayVec::new();
    match queues.try_extend_from_slice(&[NO_QUEUE; QUEUES][..usize::from(count)]) {
        Ok(()) => queues,
        Err(_) => unreachable!(),
    }
}

/// What a store to QueueNotify means: a number of 65,536 or more is that of no queue.
fn notified(value: u32) -> Effect
    ensures effect { result ≡ notified value }
    ensures there { (queues : ℕ) → IsOfQueue queues result }
{
    if value < 1 << 16 {
        Effect::Notify(value as u16)
    } else {
        Effect::None
    }
}
