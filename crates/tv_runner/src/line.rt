//! A core and the device of it that is served: the port through which the device asks, and the turn of the device.

ghost use Rattle.std.specs.Prelude.{◌≡◌, ◌≢◌, ◌-◌, None, IfSome};
ghost use Rattle.tv_items.specs.Fits.{IsAction, way_of};
ghost use Rattle.tv_journal.specs.Entries.{record_count};
ghost use Rattle.tv_script.specs.Services.{Asks};
ghost use Rattle.tv_spec.specs.Devices.{CanServe, IsOver, next_of};
ghost use Rattle.tv_core.specs.Calls.{why_of};
ghost use Rattle.tv_core.proofs.Makers.{IsAccess};
ghost use Rattle.tv_core.specs.Seen.{HasDevice, dev_of};
ghost use Rattle.tv_runner.specs.Lines.{AnsweredSo, BegunSo, DoneSo, HappenedSo, HeardSo, IsAnswered, IsAtRest, IsAwaited, IsDue, IsGoing, IsOwed, IsProbe, IsReplied, IsStill, IsTurned, TakenSo, asked, next_got};

use tv_base::DevNo;
use tv_core::Proxied;
use tv_port::{Action, Device, Ended, Heard, Item, Port, Verdict, Way};

/// A core, and the slot of the device that is served.
#[derive(Drop)]
pub struct Line {
    pub core: Proxied,
    pub at: DevNo,
}

impl Port for Line {
    ghost moved = { λ p xs q. (q.at ≡ p.at) × HappenedSo p.at p.core xs q.core };

    ghost left = { λ p. p.core.machine.journal_entries - record_count p.core.entries };

    ghost over = { λ p. why_of p.core ≢ None };

    ghost stopped = { λ p. asked (next_got (dev_of p.core p.at)) };

    ghost awaits = { λ p xs w. IsAwaited p.core p.at xs w };

    fn ask(&mut self, action: &Action) -> Result<Heard, Ended> {
        if self.core.why().is_some() {
            return Err(Ended);
        }
        if !self.begin(action) {
            return Err(Ended);
        }
        if !self.serve(action.way()) {
            return Err(Ended);
        }
        Ok(self.hear())
    }

    /// No command is made, so that a verdict has nobody to go to.
    fn tell(&mut self, _verdict: &Verdict) {}

    ghost use Rattle.tv_runner.specs.LineLaws.{line_stays, line_joins, line_goes_on};

    ghost stays = { λ p. line_stays p.at p.core };

    ghost joins = { λ p q r xs ys. line_joins p.at q.at r.at p.core q.core r.core xs ys };

    ghost goes_on = { λ p q xs ys w. line_goes_on p.at q.at p.core q.core xs ys w };
}

impl Line {
    /// Asks for the device's next action. `false` where the run has ended.
    fn begin(&mut self, action: &Action) -> bool
        requires device { HasDevice self.old.core self.old.at }
        requires going { IsGoing self.old.core }
        requires still { IsStill (dev_of self.old.core self.old.at) }
        requires next { next_got (dev_of self.old.core self.old.at) ≡ Asks action.now }
        requires inside { way_of action.now ≢ Way.Outside }
        requires action { IsAction action.now }
        ensures begun { BegunSo self.old.at self.old.core self.new.core result }
        ensures at { self.new.at ≡ self.old.at }
    {
        let begun = self.core.send(self.at, action);
        self.core.is_legal();
        begun
    }

    /// The service of this way does the action. `false` where the run has ended.
    fn serve(&mut self, way: Way) -> bool
        requires device { HasDevice self.old.core self.old.at }
        requires going { IsGoing self.old.core }
        requires can { CanServe (dev_of self.old.core self.old.at) way }
        requires inside { way ≢ Way.Outside }
        requires answered { IsAnswered (dev_of self.old.core self.old.at) }
        ensures done { DoneSo self.old.at self.old.core self.new.core result }
        ensures at { self.new.at ≡ self.old.at }
    {
        match way {
            Way::Memory => self.serve_memory(),
            Way::Interrupt => self.serve_interrupt(),
            Way::Outside => unreachable!(),
        }
    }

    /// The memory service does the action.
    fn serve_memory(&mut self) -> bool
        requires device { HasDevice self.old.core self.old.at }
        requires going { IsGoing self.old.core }
        requires can { CanServe (dev_of self.old.core self.old.at) Way.Memory }
        requires answered { IsAnswered (dev_of self.old.core self.old.at) }
        ensures done { DoneSo self.old.at self.old.core self.new.core result }
        ensures at { self.new.at ≡ self.old.at }
    {
        let done = self.core.serve_mem(self.at);
        self.core.is_legal();
        done
    }

    /// The interrupt service does the action.
    fn serve_interrupt(&mut self) -> bool
        requires device { HasDevice self.old.core self.old.at }
        requires going { IsGoing self.old.core }
        requires can { CanServe (dev_of self.old.core self.old.at) Way.Interrupt }
        requires answered { IsAnswered (dev_of self.old.core self.old.at) }
        ensures done { DoneSo self.old.at self.old.core self.new.core result }
        ensures at { self.new.at ≡ self.old.at }
    {
        let done = self.core.serve_irq(self.at);
        self.core.is_legal();
        done
    }

    /// The device gets the reply of the service.
    fn hear(&mut self) -> Heard
        requires device { HasDevice self.old.core self.old.at }
        requires going { IsGoing self.old.core }
        requires served { IsReplied (dev_of self.old.core self.old.at) }
        ensures heard { HeardSo self.old.at self.old.core self.new.core result }
        ensures at { self.new.at ≡ self.old.at }
    {
        let Some(heard) = self.core.got(self.at) else {
            unreachable!();
        };
        self.core.is_legal();
        heard
    }

    /// The device acts on its next item. `None` where there is none, or the run has ended.
    fn take(&mut self) -> Option<(u32, Item)>
        requires device { HasDevice self.old.core self.old.at }
        requires going { IsGoing self.old.core }
        requires still { IsStill (dev_of self.old.core self.old.at) }
        requires over { IsOver (next_of (dev_of self.old.core self.old.at)) }
        ensures taken { TakenSo self.old.at self.old.core self.new.core result }
        ensures access { IfSome result (λ tagged. IsAccess tagged.1) }
        ensures at { self.new.at ≡ self.old.at }
    {
        let taken = self.core.take(self.at);
        self.core.is_legal();
        taken
    }

    /// The load on which the device acted last has its value, which comes to its hart.
    fn answer(&mut self, tag: u32, value: u64)
        requires device { HasDevice self.old.core self.old.at }
        requires going { IsGoing self.old.core }
        requires owed { IsOwed (dev_of self.old.core self.old.at) tag value }
        ensures answered { AnsweredSo self.old.at self.old.core self.new.core }
        ensures at { self.new.at ≡ self.old.at }
    {
        self.core.reply(self.at, tag, value);
        self.core.is_legal();
        let _delivered = self.core.deliver(self.at);
        self.core.is_legal();
    }

    /// The item on which the device acted last has its answer: a load has its value.
    fn settle(&mut self, tag: u32, item: &Item, value: u64)
        requires device { HasDevice self.old.core self.old.at }
        requires going { IsGoing self.old.core }
        requires due { IsDue (dev_of self.old.core self.old.at) tag item.now value }
        ensures settled { AnsweredSo self.old.at self.old.core self.new.core }
        ensures at { self.new.at ≡ self.old.at }
    {
        if let Item::Load { .. } = item {
            self.answer(tag, value);
        }
    }

    /// The turn of the device: it acts on its items one by one and serves what each began, until none is left or the run ends.
    pub fn turn<D: Device>(&mut self, device: &mut D)
        requires device { HasDevice self.old.core self.old.at }
        requires going { IsGoing self.old.core }
        requires probe { IsProbe (D.state device.old) }
        requires rest { IsAtRest (dev_of self.old.core self.old.at) (D.state device.old) }
        ensures turned { IsTurned self.old.at self.old.core self.new.core (D.state device.new) }
        ensures at { self.new.at ≡ self.old.at }
    {
        while let Some((tag, item)) = self.take() {
            let acted = device.act(tag, &item);
            self.settle(tag, &item, acted.value);
            let _served = device.serve(self);
            if self.core.why().is_some() {
                return;
            }
        }
    }
}
