//! What a device measures, as C structs.
ghost use Rattle.std.specs.Prelude.{◌≡◌, ◌≤◌, ◌↔◌, IsSome, IfSome, length, map};
ghost use Rattle.hart_device.specs.Bench.{bench_process};
ghost use Rattle.hart_c.specs.Numbers.{HasVariables, IsProcessOf, output_of, sensor_of, variable_of};

use hart_commands::{SensorContent, ShortList};
use hart_device::{OutputValues, Process, ProcessVariable, bench};
use hart_values::Bits32;

/// A dynamic variable (HCF_SPEC-127).
#[repr(C)]
#[derive(Clone, Copy)]
pub struct HartVariable {
    /// The classification.
    pub classification: u8,
    /// The code of the unit.
    pub unit: u8,
    /// The value, a float, the most significant byte first.
    pub value: [u8; 4],
    /// The status.
    pub status: u8,
}

/// The sensor of a device (HCF_SPEC-127, Command 14).
#[repr(C)]
#[derive(Clone, Copy)]
pub struct HartSensor {
    /// The serial number of the transducer.
    pub serial_number: [u8; 3],
    /// The code of the unit of the limits and of the span.
    pub unit: u8,
    /// The upper limit of the transducer, a float.
    pub upper_limit: [u8; 4],
    /// The lower limit of the transducer, a float.
    pub lower_limit: [u8; 4],
    /// The minimum span of the transducer, a float.
    pub minimum_span: [u8; 4],
}

/// The values of the loop current output (HCF_SPEC-127, Command 15).
#[repr(C)]
#[derive(Clone, Copy)]
pub struct HartOutput {
    /// The code for what the loop current does at an alarm.
    pub alarm_code: u8,
    /// The code of the transfer function.
    pub transfer_function: u8,
    /// The code of the unit of the range values.
    pub unit: u8,
    /// The value at the upper end of the loop current, a float.
    pub upper_range_value: [u8; 4],
    /// The value at the lower end of the loop current, a float.
    pub lower_range_value: [u8; 4],
    /// The damping in seconds, a float.
    pub damping: [u8; 4],
    /// The flags of the analog channel.
    pub channel_flags: u8,
}

/// The process of a device (HCF_SPEC-127).
#[repr(C)]
#[derive(Clone, Copy)]
pub struct HartProcess {
    /// The loop current in milliampere, a float.
    pub loop_current: [u8; 4],
    /// The percent of range, a float.
    pub percent_of_range: [u8; 4],
    /// The dynamic variables, the primary one first. Only the first `variables_len` variables are used.
    pub variables: [HartVariable; 4],
    /// How many dynamic variables there are, 1 to 4.
    pub variables_len: u8,
    /// When the variables were measured.
    pub time_stamp: [u8; 4],
    /// The bits of the device status that the process sets: hex 80, 04, 02 and 01. Other bits are ignored.
    pub status: u8,
    /// The additional status bytes; byte 6, counted from 0, is the extended device status.
    pub additional_status: [u8; 25],
    /// The sensor.
    pub sensor: HartSensor,
    /// The loop current output.
    pub output: HartOutput,
}

/// The `HartVariable` of an unused variable.
const NO_VARIABLE: HartVariable = HartVariable {
    classification: 0,
    unit: 0,
    value: [0; 4],
    status: 0,
};

/// Writes the process of the bench device to `process`.
#[unsafe(no_mangle)]
pub extern "C" fn hart_bench_process(process: &mut HartProcess)
    ensures { IsProcessOf process.new bench_process }
{
    let bench = bench::process();
    let first = variable_shown(&bench.first);
    *process = HartProcess {
        loop_current: bench.loop_current.0,
        percent_of_range: bench.percent_of_range.0,
        variables: [first, NO_VARIABLE, NO_VARIABLE, NO_VARIABLE],
        variables_len: 1,
        time_stamp: bench.time_stamp,
        status: bench.status,
        additional_status: bench.additional_status,
        sensor: sensor_shown(&bench.sensor),
        output: output_shown(&bench.output),
    };
}

/// Returns a variable as a `HartVariable`.
fn variable_shown(variable: &ProcessVariable) -> HartVariable
    ensures { variable_of result ≡ variable.now }
{
    HartVariable {
        classification: variable.classification,
        unit: variable.unit,
        value: variable.value.0,
        status: variable.status,
    }
}

/// Returns a sensor as a `HartSensor`.
fn sensor_shown(sensor: &SensorContent) -> HartSensor
    ensures { sensor_of result ≡ sensor.now }
{
    HartSensor {
        serial_number: sensor.serial_number,
        unit: sensor.unit,
        upper_limit: sensor.upper_limit.0,
        lower_limit: sensor.lower_limit.0,
        minimum_span: sensor.minimum_span.0,
    }
}

/// Returns a loop current output as a `HartOutput`.
fn output_shown(output: &OutputValues) -> HartOutput
    ensures { output_of result ≡ output.now }
{
    HartOutput {
        alarm_code: output.alarm_code,
        transfer_function: output.transfer_function,
        unit: output.unit,
        upper_range_value: output.upper_range_value.0,
        lower_range_value: output.lower_range_value.0,
        damping: output.damping.0,
        channel_flags: output.channel_flags,
    }
}

/// Returns the process that this `HartProcess` describes, or `None` if it has no variable, or more than four.
pub(crate) fn process_of(given: &HartProcess) -> Option<Process>
    ensures accepted { IsSome result ↔ HasVariables given.now }
    ensures same { IfSome result (IsProcessOf given.now) }
{
    let variables = given.variables.get(..usize::from(given.variables_len))?;
    let (first, others) = variables.split_first()?;
    Some(Process {
        loop_current: Bits32(given.loop_current),
        percent_of_range: Bits32(given.percent_of_range),
        first: variable_of(first),
        others: variables_of(others),
        time_stamp: given.time_stamp,
        status: given.status,
        additional_status: given.additional_status,
        sensor: sensor_of(&given.sensor),
        output: output_of(&given.output),
    })
}

/// Returns the variables that these structs describe.
fn variables_of(given: &[HartVariable]) -> ShortList<ProcessVariable, 3>
    requires { length given.now ≤ 3 }
    ensures { result ≡ map variable_of given.now }
{
    let mut variables = ShortList::new();
    for variable in given {
        variables.push(variable_of(variable));
    }
    variables
}

/// Returns the process variable that this `HartVariable` describes.
fn variable_of(given: &HartVariable) -> ProcessVariable
    ensures { result ≡ variable_of given.now }
{
    ProcessVariable {
        classification: given.classification,
        unit: given.unit,
        value: Bits32(given.value),
        status: given.status,
    }
}

/// Returns the sensor that this `HartSensor` describes.
fn sensor_of(given: &HartSensor) -> SensorContent
    ensures { result ≡ sensor_of given.now }
{
    SensorContent {
        serial_number: given.serial_number,
        unit: given.unit,
        upper_limit: Bits32(given.upper_limit),
        lower_limit: Bits32(given.lower_limit),
        minimum_span: Bits32(given.minimum_span),
    }
}

/// Returns the loop current output that this `HartOutput` describes.
fn output_of(given: &HartOutput) -> OutputValues
    ensures { result ≡ output_of given.now }
{
    OutputValues {
        alarm_code: given.alarm_code,
        transfer_function: given.transfer_function,
        unit: given.unit,
        upper_range_value: Bits32(given.upper_range_value),
        lower_range_value: Bits32(given.lower_range_value),
        damping: Bits32(given.damping),
        channel_flags: given.channel_flags,
    }
}
