//! Inputs of the greatest length, longer inputs, and endless inputs.

use super::heard::{IDENTIFY, IDENTIFY_LINE, IDENTIFY_SAID, IDENTIFY_WHOLE};
use super::streams::{AS_NEW, Written};
use hart_calls::{After, Call, EMPTY, Fault, Given, NONE, TOO_LONG, Wanted, does_by_name};
use hart_cli::INPUT_LIMIT;
use hart_rows::hold_ok;
use std::alloc::Global;
use std::test::Fail;

/// A call, and its input: a number of spaces, the items after them, and what comes after the items. Then the fault of the call, and what
/// the call writes.
struct Spaced<'a> {
    call: Call<'a>,
    spaces: usize,
    input: &'a str,
    after: After,
    fault: Fault<'a>,
    text: &'a str,
}

/// Inputs of the greatest length.
const LONGEST: &[Spaced] = &[
    Spaced {
        call: Call::Dump,
        spaces: INPUT_LIMIT,
        input: "",
        after: After::End,
        fault: NONE,
        text: "",
    },
    Spaced {
        call: Call::Answer(None),
        spaces: INPUT_LIMIT,
        input: "",
        after: After::End,
        fault: NONE,
        text: "",
    },
    Spaced {
        call: Call::Simulate(None),
        spaces: INPUT_LIMIT,
        input: "",
        after: After::End,
        fault: NONE,
        text: AS_NEW,
    },
    Spaced {
        call: Call::Dump,
        spaces: INPUT_LIMIT - IDENTIFY.len(),
        input: IDENTIFY,
        after: After::End,
        fault: NONE,
        text: IDENTIFY_LINE,
    },
    // The input of `explain` may be longer.
    Spaced {
        call: Call::Explain,
        spaces: INPUT_LIMIT + 1,
        input: "",
        after: After::End,
        fault: NONE,
        text: "",
    },
    Spaced {
        call: Call::Explain,
        spaces: INPUT_LIMIT,
        input: IDENTIFY,
        after: After::End,
        fault: NONE,
        text: IDENTIFY_SAID,
    },
];

/// Inputs longer than the limit. The last item of an input counts as whole only if the byte after the item is within the limit.
const LONGER: &[Spaced] = &[
    Spaced {
        call: Call::Dump,
        spaces: INPUT_LIMIT + 1,
        input: "",
        after: After::End,
        fault: TOO_LONG,
        text: "",
    },
    Spaced {
        call: Call::Answer(None),
        spaces: INPUT_LIMIT + 1,
        input: "",
        after: After::End,
        fault: TOO_LONG,
        text: "",
    },
    Spaced {
        call: Call::Simulate(None),
        spaces: INPUT_LIMIT + 1,
        input: "",
        after: After::End,
        fault: TOO_LONG,
        text: "",
    },
    Spaced {
        call: Call::Dump,
        spaces: INPUT_LIMIT - IDENTIFY.len(),
        input: IDENTIFY,
        after: After::Spaces,
        fault: TOO_LONG,
        text: "",
    },
    Spaced {
        call: Call::Dump,
        spaces: INPUT_LIMIT - IDENTIFY_WHOLE.len(),
        input: IDENTIFY_WHOLE,
        after: After::Spaces,
        fault: TOO_LONG,
        text: IDENTIFY_LINE,
    },
];

/// Whether a call accepts or refuses the input of a row, as the row says.
fn has_its_length(rt: &impl Eprint, alloc: Global, row: &Spaced) -> Result<bool, Fail> {
    let given = Given {
        spaces: row.spaces,
        input: row.input,
        after: row.after,
        ..EMPTY
    };
    let wanted = Wanted {
        fault: row.fault,
        text: row.text,
        reads: None,
        writes: None,
    };
    does_by_name(rt, alloc, row.call, &given, &wanted)
}

#[test]
fn the_longest_inputs_are_taken(rt: HostRuntime) -> Result<(), Fail> {
    for (number, row) in LONGEST.iter().enumerate() {
        hold_ok(&rt, has_its_length(&rt, rt.alloc(), row), "row", number)?;
    }
    Ok(())
}

#[test]
fn longer_inputs_are_refused(rt: HostRuntime) -> Result<(), Fail> {
    for (number, row) in LONGER.iter().enumerate() {
        hold_ok(&rt, has_its_length(&rt, rt.alloc(), row), "row", number)?;
    }
    Ok(())
}

/// How many reads of 64 bytes it takes to exceed the limit of an input. The first read may return fewer bytes.
const READS_TO_THE_LIMIT: usize = 16_385;

/// Calls, the input of each call before endless spaces, and what each call writes.
const WITHOUT_END: &[Written] = &[
    (Call::Dump, "", ""),
    (Call::Dump, IDENTIFY_WHOLE, IDENTIFY_LINE),
    (Call::Answer(None), IDENTIFY_WHOLE, ""),
    (Call::Simulate(None), IDENTIFY_WHOLE, ""),
    (Call::Simulate(None), "turn P ok ok\n", ""),
];

/// Whether an endless input, read 64 bytes at a time, is refused at the first byte over the limit.
fn is_refused(
    rt: &impl Eprint,
    alloc: Global,
    (call, input, text): &Written,
) -> Result<bool, Fail> {
    let given = Given {
        input,
        after: After::Spaces,
        most_read: 64,
        ..EMPTY
    };
    let reads = Some(READS_TO_THE_LIMIT);
    does_by_name(
        rt,
        alloc,
        *call,
        &given,
        &Wanted {
            fault: TOO_LONG,
            text,
            reads,
            writes: None,
        },
    )
}

#[test]
fn an_input_without_end_is_too_long(rt: HostRuntime) -> Result<(), Fail> {
    for (number, row) in WITHOUT_END.iter().enumerate() {
        hold_ok(&rt, is_refused(&rt, rt.alloc(), row), "row", number)?;
    }
    Ok(())
}
