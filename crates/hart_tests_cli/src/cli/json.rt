//! `explain` with `--json`.

use super::heard::{IDENTIFY, IDENTIFY_WHOLE};
use hart_calls::{After, Call, NONE, READ, Row, hold_rows};
use std::test::Fail;

const LINES: &[Row] = &[
    ("", "", NONE),
    // A reply, with a date.
    (
        "@12:00:01 FF FF 86 B7 42 0A 1B 2C 13 05 00 40 01 23 45 7F",
        "{\"type\":\"message\",\"time\":\"12:00:01\",\"start\":2,\"stop\":16,\"preambles\":2,\"kind\":\"reply\",\
            \"master\":\"primary\",\"address\":\"37420A1B2C\",\"burst\":false,\"expansion\":\"\",\
            \"command\":19,\"command_name\":\"write final assembly number\",\"status\":\"0040\",\"response_code\":0,\
            \"response\":\"success\",\"device_status\":[\"configuration changed\"],\"communication_faults\":null,\
            \"data\":\"012345\",\"fields\":{\"final_assembly_number\":\"012345\"},\"ignored\":\"\",\
            \"problem\":null,\"answers\":null}\n",
        NONE,
    ),
    // A request whose data are refused.
    (
        "FF FF 82 B7 42 0A 1B 2C 06 03 40 02 55 58",
        "{\"type\":\"message\",\"start\":2,\"stop\":14,\"preambles\":2,\"kind\":\"request\",\"master\":\"primary\",\
            \"address\":\"37420A1B2C\",\"burst\":false,\"expansion\":\"\",\"command\":6,\"command_name\":\"write polling add\
            ress\",\"data\":\"400255\",\"fields\":{\"polling_address\":64,\"loop_current_mode\":2},\
            \"ignored\":\"55\",\"problem\":{\"reason\":\"refused\",\"code\":2,\"name\":\"invalid selection\"},\
            \"sending\":1}\n",
        NONE,
    ),
    // Texts and a date.
    (
        "FF FF 86 B7 42 0A 1B 2C 0D 17 00 00 06 20 9C 83 68 A0 40 94 05 83 68 A0 82 08 20 82 08 20 1D 02 64 44",
        "{\"type\":\"message\",\"start\":2,\"stop\":34,\"preambles\":2,\"kind\":\"reply\",\"master\":\"primary\",\
            \"address\":\"37420A1B2C\",\"burst\":false,\"expansion\":\"\",\"command\":13,\"command_name\":\"read tag, descri\
            ptor, date\",\"status\":\"0000\",\"response_code\":0,\"response\":\"success\",\"device_status\":[],\
            \"communication_faults\":null,\"data\":\"06209C8368A04094058368A08208208208201D0264\",\
            \"fields\":{\"tag\":\"A\\\"B\\\\ 6\\\" \",\"descriptor\":\"PIPE 6\\\"         \",\"date\":\"2000-02-29\"},\
            \"ignored\":\"\",\"problem\":null,\"answers\":null}\n",
        NONE,
    ),
    // Device variables.
    (
        "FF FF 86 B7 42 0A 1B 2C 09 17 00 00 00 F5 00 27 41 40 00 00 C0 09 00 FA 7F A0 00 00 30 00 00 00 00 5F",
        "{\"type\":\"message\",\"start\":2,\"stop\":34,\"preambles\":2,\"kind\":\"reply\",\"master\":\"primary\",\
            \"address\":\"37420A1B2C\",\"burst\":false,\"expansion\":\"\",\"command\":9,\"command_name\":\"read device varia\
            bles with status\",\"status\":\"0000\",\"response_code\":0,\"response\":\"success\",\"device_status\":[],\
            \"communication_faults\":null,\"data\":\"00F5002741400000C00900FA7FA000003000000000\",\
            \"fields\":{\"extended_device_status\":\"00\",\"device_variables\":[{\"code\":245,\"classification\":0,\
            \"unit\":39,\"value\":\"41400000\",\"status\":\"C0\"},{\"code\":9,\"classification\":0,\
            \"unit\":250,\"value\":\"7FA00000\",\"status\":\"30\"}],\"time_stamp\":\"00000000\"},\
            \"ignored\":\"\",\"problem\":null,\"answers\":null}\n",
        NONE,
    ),
    // Communication faults.
    (
        "FF FF 86 B7 42 0A 1B 2C 13 03 88 00 01 D7",
        "{\"type\":\"message\",\"start\":2,\"stop\":14,\"preambles\":2,\"kind\":\"reply\",\"master\":\"primary\",\
            \"address\":\"37420A1B2C\",\"burst\":false,\"expansion\":\"\",\"command\":19,\"command_name\":\"write final asse\
            mbly number\",\"status\":\"8800\",\"response_code\":null,\"response\":null,\"device_status\":null,\
            \"communication_faults\":[\"longitudinal parity\"],\"data\":\"01\",\"fields\":{},\"ignored\":\"01\",\
            \"problem\":null,\"answers\":null}\n",
        NONE,
    ),
    // Every reason of a miss except one.
    (
        "FF FF 02 80 7D 00 FF FF 02 00 00 00 02 FF FF 02!40 FF FF 82 B7 42 0A 1B 2C 13 03 01 23 46 3D FF FF 01 00 FF FF 0\
            A FF FF 06 80 00 01 FF FF 02 80",
        "{\"type\":\"message\",\"start\":2,\"stop\":7,\"preambles\":2,\"kind\":\"request\",\"master\":\"primary\",\
            \"address\":\"@0\",\"burst\":false,\"expansion\":\"\",\"command\":125,\"command_name\":null,\
            \"data\":\"\",\"fields\":{},\"ignored\":\"\",\"problem\":null,\"sending\":1}\n\
            {\"type\":\"miss\",\"start\":8,\"place\":8,\"reason\":\"one_preamble\",\"seems\":{\"kind\":\"request\",\
            \"master\":\"secondary\",\"address\":\"@0\",\"command\":0,\"command_name\":\"read unique identifier\"}}\n\
            {\"type\":\"miss\",\"start\":15,\"place\":15,\"reason\":\"faulty\",\"at\":15,\"faults\":\"40\",\"seems\":null}\n\
            {\"type\":\"miss\",\"start\":18,\"place\":18,\"reason\":\"bad_check\",\"at\":29,\"byte\":\"3D\",\"fits\":\"3E\",\
            \"seems\":{\"kind\":\"request\",\"master\":\"primary\",\"address\":\"37420A1B2C\",\"command\":19,\
            \"command_name\":\"write final assembly number\"}}\n\
            {\"type\":\"miss\",\"start\":32,\"place\":32,\"reason\":\"burst\",\"seems\":null}\n\
            {\"type\":\"miss\",\"start\":36,\"place\":36,\"reason\":\"bad_delimiter\",\"byte\":\"0A\",\"seems\":null}\n\
            {\"type\":\"miss\",\"start\":39,\"place\":39,\"reason\":\"short_reply\",\"byte_count\":1,\"seems\":{\"kind\":\"reply\",\
            \"master\":\"primary\",\"address\":\"@0\",\"command\":0,\"command_name\":\"read unique identifier\"}}\n\
            {\"type\":\"miss\",\"start\":45,\"place\":45,\"reason\":\"ends_before_byte_count\",\"seems\":null}\n",
        NONE,
    ),
    // The remaining reason of a miss.
    (
        "FF FF 82 B7 42 0A 1B 2C 13 03 01 23",
        "{\"type\":\"miss\",\"start\":2,\"place\":2,\"reason\":\"missing\",\"count\":2,\"seems\":{\"kind\":\"request\",\
            \"master\":\"primary\",\"address\":\"37420A1B2C\",\"command\":19,\"command_name\":\"write final assembly number\"\
            }}\n",
        NONE,
    ),
    // A request that is sent twice, its reply, and the request once more.
    (
        "FF FF 02 80 7D 00 FF FF FF 02 80 7D 00 FF FF FF 06 80 7D 02 00 00 F9 FF FF 02 80 7D 00 FF",
        "{\"type\":\"message\",\"start\":2,\"stop\":7,\"preambles\":2,\"kind\":\"request\",\"master\":\"primary\",\
            \"address\":\"@0\",\"burst\":false,\"expansion\":\"\",\"command\":125,\"command_name\":null,\
            \"data\":\"\",\"fields\":{},\"ignored\":\"\",\"problem\":null,\"sending\":1}\n\
            {\"type\":\"message\",\"start\":9,\"stop\":14,\"preambles\":2,\"kind\":\"request\",\"master\":\"primary\",\
            \"address\":\"@0\",\"burst\":false,\"expansion\":\"\",\"command\":125,\"command_name\":null,\
            \"data\":\"\",\"fields\":{},\"ignored\":\"\",\"problem\":null,\"sending\":2}\n\
            {\"type\":\"message\",\"start\":16,\"stop\":23,\"preambles\":2,\"kind\":\"reply\",\"master\":\"primary\",\
            \"address\":\"@0\",\"burst\":false,\"expansion\":\"\",\"command\":125,\"command_name\":null,\
            \"status\":\"0000\",\"response_code\":0,\"response\":\"success\",\"device_status\":[],\
            \"communication_faults\":null,\"data\":\"\",\"fields\":{},\"ignored\":\"\",\"problem\":null,\
            \"answers\":9}\n\
            {\"type\":\"message\",\"start\":25,\"stop\":30,\"preambles\":2,\"kind\":\"request\",\"master\":\"primary\",\
            \"address\":\"@0\",\"burst\":false,\"expansion\":\"\",\"command\":125,\"command_name\":null,\
            \"data\":\"\",\"fields\":{},\"ignored\":\"\",\"problem\":null,\"sending\":1}\n",
        NONE,
    ),
    // A request of the other master and a miss between a request and its repetition.
    (
        "FF FF 02 80 7D 00 FF FF FF 02 00 7D 00 7F FF FF 0A FF FF 06 80 7D 02 00 00 F9 FF FF 02 80 7D 00 FF",
        "{\"type\":\"message\",\"start\":2,\"stop\":7,\"preambles\":2,\"kind\":\"request\",\"master\":\"primary\",\
            \"address\":\"@0\",\"burst\":false,\"expansion\":\"\",\"command\":125,\"command_name\":null,\
            \"data\":\"\",\"fields\":{},\"ignored\":\"\",\"problem\":null,\"sending\":1}\n\
            {\"type\":\"message\",\"start\":9,\"stop\":14,\"preambles\":2,\"kind\":\"request\",\"master\":\"secondary\",\
            \"address\":\"@0\",\"burst\":false,\"expansion\":\"\",\"command\":125,\"command_name\":null,\
            \"data\":\"\",\"fields\":{},\"ignored\":\"\",\"problem\":null,\"sending\":1}\n\
            {\"type\":\"miss\",\"start\":16,\"place\":16,\"reason\":\"bad_delimiter\",\"byte\":\"0A\",\"seems\":null}\n\
            {\"type\":\"message\",\"start\":19,\"stop\":26,\"preambles\":2,\"kind\":\"reply\",\"master\":\"primary\",\
            \"address\":\"@0\",\"burst\":false,\"expansion\":\"\",\"command\":125,\"command_name\":null,\
            \"status\":\"0000\",\"response_code\":0,\"response\":\"success\",\"device_status\":[],\
            \"communication_faults\":null,\"data\":\"\",\"fields\":{},\"ignored\":\"\",\"problem\":null,\
            \"answers\":2}\n\
            {\"type\":\"message\",\"start\":28,\"stop\":33,\"preambles\":2,\"kind\":\"request\",\"master\":\"primary\",\
            \"address\":\"@0\",\"burst\":false,\"expansion\":\"\",\"command\":125,\"command_name\":null,\
            \"data\":\"\",\"fields\":{},\"ignored\":\"\",\"problem\":null,\"sending\":1}\n",
        NONE,
    ),
    // A reply after a silence, and a second reply.
    (
        "FF FF 02 80 7D 00 FF / FF FF 06 80 7D 02 00 00 F9 FF FF 06 80 7D 02 00 00 F9",
        "{\"type\":\"message\",\"start\":2,\"stop\":7,\"preambles\":2,\"kind\":\"request\",\"master\":\"primary\",\
            \"address\":\"@0\",\"burst\":false,\"expansion\":\"\",\"command\":125,\"command_name\":null,\
            \"data\":\"\",\"fields\":{},\"ignored\":\"\",\"problem\":null,\"sending\":1}\n\
            {\"type\":\"message\",\"start\":9,\"stop\":16,\"preambles\":2,\"kind\":\"reply\",\"master\":\"primary\",\
            \"address\":\"@0\",\"burst\":false,\"expansion\":\"\",\"command\":125,\"command_name\":null,\
            \"status\":\"0000\",\"response_code\":0,\"response\":\"success\",\"device_status\":[],\
            \"communication_faults\":null,\"data\":\"\",\"fields\":{},\"ignored\":\"\",\"problem\":null,\
            \"answers\":2}\n\
            {\"type\":\"message\",\"start\":18,\"stop\":25,\"preambles\":2,\"kind\":\"reply\",\"master\":\"primary\",\
            \"address\":\"@0\",\"burst\":false,\"expansion\":\"\",\"command\":125,\"command_name\":null,\
            \"status\":\"0000\",\"response_code\":0,\"response\":\"success\",\"device_status\":[],\
            \"communication_faults\":null,\"data\":\"\",\"fields\":{},\"ignored\":\"\",\"problem\":null,\
            \"answers\":null}\n",
        NONE,
    ),
    // A reply of another device, and a reply to another command.
    (
        "FF FF 02 80 7D 00 FF FF FF 06 81 7D 02 00 00 F8 FF FF 02 80 7D 00 FF FF FF 06 80 7E 02 00 00 FA",
        "{\"type\":\"message\",\"start\":2,\"stop\":7,\"preambles\":2,\"kind\":\"request\",\"master\":\"primary\",\
            \"address\":\"@0\",\"burst\":false,\"expansion\":\"\",\"command\":125,\"command_name\":null,\
            \"data\":\"\",\"fields\":{},\"ignored\":\"\",\"problem\":null,\"sending\":1}\n\
            {\"type\":\"message\",\"start\":9,\"stop\":16,\"preambles\":2,\"kind\":\"reply\",\"master\":\"primary\",\
            \"address\":\"@1\",\"burst\":false,\"expansion\":\"\",\"command\":125,\"command_name\":null,\
            \"status\":\"0000\",\"response_code\":0,\"response\":\"success\",\"device_status\":[],\
            \"communication_faults\":null,\"data\":\"\",\"fields\":{},\"ignored\":\"\",\"problem\":null,\
            \"answers\":null}\n\
            {\"type\":\"message\",\"start\":18,\"stop\":23,\"preambles\":2,\"kind\":\"request\",\"master\":\"primary\",\
            \"address\":\"@0\",\"burst\":false,\"expansion\":\"\",\"command\":125,\"command_name\":null,\
            \"data\":\"\",\"fields\":{},\"ignored\":\"\",\"problem\":null,\"sending\":1}\n\
            {\"type\":\"message\",\"start\":25,\"stop\":32,\"preambles\":2,\"kind\":\"reply\",\"master\":\"primary\",\
            \"address\":\"@0\",\"burst\":false,\"expansion\":\"\",\"command\":126,\"command_name\":null,\
            \"status\":\"0000\",\"response_code\":0,\"response\":\"success\",\"device_status\":[],\
            \"communication_faults\":null,\"data\":\"\",\"fields\":{},\"ignored\":\"\",\"problem\":null,\
            \"answers\":null}\n",
        NONE,
    ),
    // A different request of the same master between a request and its repetition.
    (
        "FF FF 02 80 7D 00 FF FF FF 02 80 7E 00 FC FF FF 02 80 7D 00 FF",
        "{\"type\":\"message\",\"start\":2,\"stop\":7,\"preambles\":2,\"kind\":\"request\",\"master\":\"primary\",\
            \"address\":\"@0\",\"burst\":false,\"expansion\":\"\",\"command\":125,\"command_name\":null,\
            \"data\":\"\",\"fields\":{},\"ignored\":\"\",\"problem\":null,\"sending\":1}\n\
            {\"type\":\"message\",\"start\":9,\"stop\":14,\"preambles\":2,\"kind\":\"request\",\"master\":\"primary\",\
            \"address\":\"@0\",\"burst\":false,\"expansion\":\"\",\"command\":126,\"command_name\":null,\
            \"data\":\"\",\"fields\":{},\"ignored\":\"\",\"problem\":null,\"sending\":1}\n\
            {\"type\":\"message\",\"start\":16,\"stop\":21,\"preambles\":2,\"kind\":\"request\",\"master\":\"primary\",\
            \"address\":\"@0\",\"burst\":false,\"expansion\":\"\",\"command\":125,\"command_name\":null,\
            \"data\":\"\",\"fields\":{},\"ignored\":\"\",\"problem\":null,\"sending\":1}\n",
        NONE,
    ),
    // More preamble bytes than two, and those after a check byte FF, a damaged character and a silence.
    (
        "FF FF FF FF FF 02 80 7D 00 FF FF FF FF 02 80 7D 00 FF FF!40 FF FF FF 02 80 7D 00 FF FF/FF FF 02 80 7D 00 FF",
        "{\"type\":\"message\",\"start\":5,\"stop\":10,\"preambles\":5,\"kind\":\"request\",\"master\":\"primary\",\
            \"address\":\"@0\",\"burst\":false,\"expansion\":\"\",\"command\":125,\"command_name\":null,\
            \"data\":\"\",\"fields\":{},\"ignored\":\"\",\"problem\":null,\"sending\":1}\n\
            {\"type\":\"message\",\"start\":13,\"stop\":18,\"preambles\":3,\"kind\":\"request\",\"master\":\"primary\",\
            \"address\":\"@0\",\"burst\":false,\"expansion\":\"\",\"command\":125,\"command_name\":null,\
            \"data\":\"\",\"fields\":{},\"ignored\":\"\",\"problem\":null,\"sending\":2}\n\
            {\"type\":\"message\",\"start\":22,\"stop\":27,\"preambles\":3,\"kind\":\"request\",\"master\":\"primary\",\
            \"address\":\"@0\",\"burst\":false,\"expansion\":\"\",\"command\":125,\"command_name\":null,\
            \"data\":\"\",\"fields\":{},\"ignored\":\"\",\"problem\":null,\"sending\":3}\n\
            {\"type\":\"message\",\"start\":30,\"stop\":35,\"preambles\":2,\"kind\":\"request\",\"master\":\"primary\",\
            \"address\":\"@0\",\"burst\":false,\"expansion\":\"\",\"command\":125,\"command_name\":null,\
            \"data\":\"\",\"fields\":{},\"ignored\":\"\",\"problem\":null,\"sending\":4}\n",
        NONE,
    ),
    (
        "FF FF 02 80 7D 00 FF 0G",
        "{\"type\":\"message\",\"start\":2,\"stop\":7,\"preambles\":2,\"kind\":\"request\",\"master\":\"primary\",\
            \"address\":\"@0\",\"burst\":false,\"expansion\":\"\",\"command\":125,\"command_name\":null,\
            \"data\":\"\",\"fields\":{},\"ignored\":\"\",\"problem\":null,\"sending\":1}\n",
        (4, "bad hex at 21"),
    ),
];

/// Inputs after which a read fails.
const BROKEN_OFF: &[Row] = &[
    (
        IDENTIFY,
        "{\"type\":\"miss\",\"start\":2,\"place\":2,\"reason\":\"missing\",\"count\":1,\"seems\":{\"kind\":\"request\",\
            \"master\":\"primary\",\"address\":\"@0\",\"command\":0,\"command_name\":\"read unique identifier\"}}\n",
        READ,
    ),
    (
        IDENTIFY_WHOLE,
        "{\"type\":\"message\",\"start\":2,\"stop\":7,\"preambles\":2,\"kind\":\"request\",\"master\":\"primary\",\
            \"address\":\"@0\",\"burst\":false,\"expansion\":\"\",\"command\":0,\"command_name\":\"read unique identifier\",\
            \"data\":\"\",\"fields\":{},\"ignored\":\"\",\"problem\":null,\"sending\":1}\n",
        READ,
    ),
];

#[test]
fn what_was_heard_is_told_in_json(rt: HostRuntime) -> Result<(), Fail> {
    let alloc = rt.alloc();
    hold_rows(&rt, alloc, Call::ExplainJson, After::End, "row", LINES)?;
    hold_rows(
        &rt,
        alloc,
        Call::ExplainJson,
        After::Failure,
        "row broken off",
        BROKEN_OFF,
    )?;
    Ok(())
}

/// Texts that have no preamble byte if they are read as raw bytes.
const SILENT: &[Row] = &[("", "", NONE), (IDENTIFY, "", NONE)];

#[test]
fn raw_bytes_are_told_in_json(rt: HostRuntime) -> Result<(), Fail> {
    hold_rows(
        &rt,
        rt.alloc(),
        Call::ExplainRawJson,
        After::End,
        "row",
        SILENT,
    )?;
    Ok(())
}
