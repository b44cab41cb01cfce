//! Pages that go from the driver to the balloon, and back.

ghost use Rattle.std.specs.Prelude.{◌≡◌, ◌≤◌};
ghost use Rattle.tv_script.specs.Scripts.{AwaitsAll, Ask};
ghost use Rattle.tv_virtio.specs.Queue.{RanSo, heard_done};
ghost use Rattle.tv_plan.specs.Balloon.{page_numbers, each_page};
ghost use Rattle.tv_balloon.specs.Moving.{moving};

use byteorder::{ByteOrder, LittleEndian};
use tv_port::{Action, Ended, Heard, Port};
use tv_vring::QueueStop;

/// How many bytes a page's number has.
const NUMBER_BYTES: usize = 4;

/// Where a page goes.
#[derive(Clone, Copy)]
pub enum Move {
    /// To the balloon. No device may touch it then where `hold` is set.
    Release { hold: bool },
    /// Back to the driver.
    Regain,
}

impl Move {
    /// What is asked for so that a page goes there.
    fn action(self, page: u32) -> Action
        ensures { result ≡ moving self page }
    {
        match self {
            Move::Release { hold } => Action::Release { page, hold },
            Move::Regain => Action::Regain { page },
        }
    }
}

/// Moves a page.
#[tactic(auto, using(tv_script::proofs::Scripts::awaits_now, tv_script::proofs::Scripts::cut_here), unfolding(tv_script::specs::Scripts::Follows))]
fn move_page<P: Port>(to: Move, page: u32, port: &mut P) -> Result<(), QueueStop>
    requires awaits { AwaitsAll (P.awaits port.old) (Ask (moving to page) heard_done) }
    ensures ran { RanSo P.moved P.over P.stopped port.old (Ask (moving to page) heard_done) port.new result }
    ensures left { P.left port.new ≤ P.left port.old }
{
    match port.ask(&to.action(page)) {
        Ok(Heard::Done) => Ok(()),
        Ok(_) => Err(QueueStop::Refused),
        Err(Ended) => Err(QueueStop::Ended),
    }
}

/// Moves each page whose number the bytes of a request spell, in order, up to the first that is refused. What is left behind
/// the last whole number is left out.
///
/// # Errors
/// [`QueueStop::Refused`] where a page was refused, and [`QueueStop::Ended`] where the port answered no more.
pub fn move_pages<P: Port>(to: Move, request: &[u8], port: &mut P) -> Result<(), QueueStop>
    requires awaits { AwaitsAll (P.awaits port.old) (each_page (moving to) (page_numbers request.now)) }
    ensures ran { RanSo P.moved P.over P.stopped port.old (each_page (moving to) (page_numbers request.now)) port.new result }
    ensures left { P.left port.new ≤ P.left port.old }
{
    for n in 0..request.len() / NUMBER_BYTES {
        let page = LittleEndian::read_u32(&request[NUMBER_BYTES * n..]);
        move_page(to, page, port)?;
    }
    Ok(())
}
