//! Makes each call once by its function, and prints the result.
//!
//! `tools/refused-growths.sh` runs this test many times, and each time refuses a different allocation (a growth). So only the calls may
//! allocate here: inputs are constants, and texts go into an array.

use hart_calls::{Call, NEW, Named, USUAL, Words};
use hart_cli::Plain;
use hart_device::{Device, FieldRegisters, bench};
use hart_line::{LineEvent, LineFault, read_script, run};
use hart_master::{Master, MasterFault};
use hart_values::MasterId;
use std::alloc::Global;
use std::test::Fail;

/// A script in which a reply is lost and a garbled request is heard as noise. Two of its words are hex items.
const SCRIPT: &str = "submit P 37420A1B2C 19 012345\nsubmit S all 0\n\
    turn P ok lost\nturn P FFFF!40 ok\n\
    noise FFFF82B7420A1B2C13030123453C\nturn P ok ok\n";

/// Two messages, and noise between them.
const HEARD: &str = "FF FF 02 80 00 00 82 FF!40 FF FF 82 B7 42 0A 1B 2C 13 03 01 23 45 3D";

/// A request for the identity.
const IDENTIFY: &str = "FF FF 02 80 00 00 82";

/// Calls over streams, each with its name and its input.
const CALLS: &[(Call, &str, &str)] = &[
    (Call::Dump, "dump", HEARD),
    (Call::Explain, "explain", HEARD),
    (Call::ExplainRaw, "explain_raw", HEARD),
    (Call::ExplainJson, "explain_json", HEARD),
    (Call::ExplainRawJson, "explain_raw_json", HEARD),
    (Call::Answer(None), "answer", IDENTIFY),
    (Call::Answer(Some(NEW)), "answer with an image", IDENTIFY),
    (Call::Serve(None), "serve", IDENTIFY),
    (Call::Serve(Some(NEW)), "serve with an image", IDENTIFY),
    (Call::Master(USUAL), "master", "submit @0 0\n"),
    (Call::Simulate(None), "simulate", SCRIPT),
    (Call::Simulate(Some(NEW)), "simulate with an image", SCRIPT),
    (
        Call::Encode(Words {
            who: "P",
            address: "37420A1B2C",
            command: "19",
            data: "012345",
            preambles: 5,
        }),
        "encode_text",
        "",
    ),
    (
        Call::Request(Named {
            who: "P",
            address: "37420A1B2C",
            command: "19",
            fields: &["final_assembly_number=0x012345"],
            preambles: 5,
        }),
        "request",
        "",
    ),
];

/// The size in bytes of the array for the text of a call.
const ROOM: usize = 1024;

/// Makes a call. Returns the number of its fault, or 0 if there is no fault, and how many bytes the call wrote.
fn made(alloc: Global, call: Call, input: &str) -> Result<(u8, usize), Fail> {
    let mut room = [0; ROOM];
    let mut output = Plain::new(&mut room[..]);
    let number = match call.make(alloc, &mut Plain::new(input.as_bytes()), &mut output)? {
        Ok(()) => 0,
        Err(fault) => fault.number(),
    };
    Ok((number, ROOM.saturating_sub(output.into_inner().len())))
}

/// Carries out events with two masters and the bench device. Returns the number of the fault, or 0 if there is no fault.
fn carried_out(alloc: Global, events: &[LineEvent]) -> Result<u8, MasterFault> {
    let primary = Master::new(MasterId::Primary, 3, 33)?;
    let secondary = Master::new(MasterId::Secondary, 3, 41)?;
    let device: Device<FieldRegisters> = Device::new(bench::identity(), &bench::register_values());
    let report = run(alloc, device, primary, secondary, events, &bench::process());
    Ok(number_of(&report))
}

/// Returns the number of the fault in a result, or 0 if there is no fault.
fn number_of<T>(answered: &Result<T, LineFault>) -> u8 {
    match answered {
        Ok(_) => 0,
        Err(fault) => fault.number(),
    }
}

/// Reads the script, carries it out, and returns the fault numbers of both steps. If an allocation is refused while the script is read,
/// reads the script again: a run refuses only one allocation.
fn run_script(alloc: Global) -> Result<(u8, u8), Fail> {
    let read = read_script(alloc, SCRIPT.as_bytes());
    let number = number_of(&read);
    let events = match read {
        Ok(events) => events,
        Err(_) => read_script(alloc, SCRIPT.as_bytes())?,
    };
    Ok((number, carried_out(alloc, events.as_slice())?))
}

#[test]
fn each_call_succeeds_with_ample_memory(rt: HostRuntime) -> Result<(), Fail> {
    let (read, carried_out) = run_script(rt.alloc())?;
    println!(rt; "read_script {read}\nrun {carried_out}")?;
    let mut is_done = read == 0 && carried_out == 0;
    for (call, name, input) in CALLS {
        let (number, bytes) = made(rt.alloc(), *call, input)?;
        println!(rt; "{name} {number} {bytes}")?;
        is_done &= number == 0;
    }
    is_done.then_some(()).ok_or("a call that failed")?;
    Ok(())
}
