//! Shows what happens at a host.
ghost use Rattle.std.specs.Prelude.{IfOk};
ghost use Rattle.amo_client.specs.Statuses.{IsOfWatch};

use crate::fault::ClientFault;
use crate::held::FileText;
use crate::station::{Explains, Place, Station};
use crate::telling::{tell_no_answer, tell_refusal};
use amo_call::{Followed, follow};
use std::fs::File;
use std::io::Write;
use std::net::{Net, TcpStream};
use std::rt::{Clock, Files};

/// Shows what happens, a line each, until the door is closed.
pub(crate) fn watch<
    R: AllocGlobal + Clock + Eprint + Files<File = File> + Net<Stream = TcpStream>,
    O: Write + Drop,
>(rt: &R, place: &Place, after: Option<u64>, output: O) -> Result<u8, ClientFault>
    ensures { IfOk result IsOfWatch }
{
    let alloc = rt.alloc();
    let mut output = output;
    let mut station = Station::new(rt, place, "", FileText::absent(alloc))?;
    let Some(mut stream) = station.find() else {
        return Ok(tell_no_answer(rt, station.why()));
    };
    match follow(alloc, &mut stream, &place.who, after, &mut output) {
        Ok(Followed::Ended) => Ok(tell_no_answer(rt, None)),
        Ok(Followed::Refused(response)) => Ok(tell_refusal(rt, &response)),
        Ok(Followed::Unshown(error)) => Err(ClientFault::of_output(error)),
        Err(fault) => Err(ClientFault::of_call(alloc, "", fault, None)),
    }
}
