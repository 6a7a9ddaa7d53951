//! The names of unit codes (HCF_SPEC-183).
ghost use Rattle.std.specs.Prelude.{◌≡◌, ◌==◌, find, map, option_map};
ghost use Rattle.hart_commands.specs.Units.{seen_unit, unit_name, unit_row};

/// A unit code and its name.
#[derive(Clone, Copy, Debug, PartialEq, Eq)]
pub struct UnitRow {
    pub code: u8,
    pub name: &'static str,
}

/// Makes a list of units from one line for each unit.
macro_rules! units {
    ($($code:literal, $name:literal;)*) => {
        &[$(UnitRow { code: $code, name: $name }),*]
    };
}

/// The unit codes that mean the same unit in every class of device variables.
const UNITS: &[UnitRow] = units! {
    1, "inches of water at 68 degrees Fahrenheit";
    2, "inches of mercury at 0 degrees Celsius";
    3, "feet of water at 68 degrees Fahrenheit";
    4, "millimeters of water at 68 degrees Fahrenheit";
    5, "millimeters of mercury at 0 degrees Celsius";
    6, "pounds per square inch";
    7, "bars";
    8, "millibars";
    9, "grams per square centimeter";
    10, "kilograms per square centimeter";
    11, "pascals";
    12, "kilopascals";
    13, "torr";
    14, "atmospheres";
    15, "cubic feet per minute";
    16, "US gallons per minute";
    17, "liters per minute";
    18, "imperial gallons per minute";
    19, "cubic meters per hour";
    20, "feet per second";
    21, "meters per second";
    22, "US gallons per second";
    23, "million US gallons per day";
    24, "liters per second";
    25, "million liters per day";
    26, "cubic feet per second";
    27, "cubic feet per day";
    28, "cubic meters per second";
    29, "cubic meters per day";
    30, "imperial gallons per hour";
    31, "imperial gallons per day";
    32, "degrees Celsius";
    33, "degrees Fahrenheit";
    34, "degrees Rankine";
    35, "kelvins";
    36, "millivolts";
    37, "ohms";
    38, "hertz";
    39, "milliamperes";
    40, "US gallons";
    41, "liters";
    42, "imperial gallons";
    43, "cubic meters";
    44, "feet";
    45, "meters";
    46, "barrels";
    47, "inches";
    48, "centimeters";
    49, "millimeters";
    50, "minutes";
    51, "seconds";
    52, "hours";
    53, "days";
    54, "centistokes";
    55, "centipoises";
    56, "microsiemens";
    57, "percent";
    58, "volts";
    59, "pH";
    60, "grams";
    61, "kilograms";
    62, "metric tons";
    63, "pounds";
    64, "short tons";
    65, "long tons";
    66, "millisiemens per centimeter";
    67, "microsiemens per centimeter";
    68, "newtons";
    69, "newton meters";
    70, "grams per second";
    71, "grams per minute";
    72, "grams per hour";
    73, "kilograms per second";
    74, "kilograms per minute";
    75, "kilograms per hour";
    76, "kilograms per day";
    77, "metric tons per minute";
    78, "metric tons per hour";
    79, "metric tons per day";
    80, "pounds per second";
    81, "pounds per minute";
    82, "pounds per hour";
    83, "pounds per day";
    84, "short tons per minute";
    85, "short tons per hour";
    86, "short tons per day";
    87, "long tons per hour";
    88, "long tons per day";
    89, "dekatherms";
    90, "specific gravity units";
    91, "grams per cubic centimeter";
    92, "kilograms per cubic meter";
    93, "pounds per US gallon";
    94, "pounds per cubic foot";
    95, "grams per milliliter";
    96, "kilograms per liter";
    97, "grams per liter";
    98, "pounds per cubic inch";
    99, "short tons per cubic yard";
    100, "degrees Twaddell";
    101, "degrees Brix";
    102, "degrees Baume heavy";
    103, "degrees Baume light";
    104, "degrees API";
    105, "percent solids per weight";
    106, "percent solids per volume";
    107, "degrees Balling";
    108, "proof per volume";
    109, "proof per mass";
    110, "bushels";
    111, "cubic yards";
    112, "cubic feet";
    113, "cubic inches";
    114, "inches per second";
    115, "inches per minute";
    116, "feet per minute";
    117, "degrees per second";
    118, "revolutions per second";
    119, "revolutions per minute";
    120, "meters per hour";
    121, "normal cubic meters per hour";
    122, "normal liters per hour";
    123, "standard cubic feet per minute";
    124, "liquid barrels";
    125, "ounces";
    126, "foot pounds force";
    127, "kilowatts";
    128, "kilowatt hours";
    129, "horsepower";
    130, "cubic feet per hour";
    131, "cubic meters per minute";
    132, "barrels per second";
    133, "barrels per minute";
    134, "barrels per hour";
    135, "barrels per day";
    136, "US gallons per hour";
    137, "imperial gallons per second";
    138, "liters per hour";
    139, "parts per million";
    140, "megacalories per hour";
    141, "megajoules per hour";
    142, "British thermal units per hour";
    143, "degrees";
    144, "radians";
    145, "inches of water at 60 degrees Fahrenheit";
    146, "micrograms per liter";
    147, "micrograms per cubic meter";
    148, "percent consistency";
    149, "volume percent";
    150, "percent steam quality";
    151, "feet in sixteenths";
    152, "cubic feet per pound";
    153, "picofarads";
    154, "milliliters per liter";
    155, "microliters per liter";
    160, "percent Plato";
    161, "percent lower explosion level";
    162, "megacalories";
    163, "kilohms";
    164, "megajoules";
    165, "British thermal units";
    166, "normal cubic meters";
    167, "normal liters";
    168, "standard cubic feet";
    169, "parts per billion";
    235, "US gallons per day";
    236, "hectoliters";
    237, "megapascals";
    238, "inches of water at 4 degrees Celsius";
    239, "millimeters of water at 4 degrees Celsius";
    250, "not used";
    251, "none";
    252, "unknown";
    253, "special";
};

/// Returns the name of a unit code, such as `degrees Celsius` for 32 (HCF_SPEC-183). Returns `None` if the code does not name the same unit
/// in every class of device variables.
pub fn unit_name(code: u8) -> Option<&'static str>
    ensures { option_map (λ name. name.now) result ≡ unit_name code }
{
    Some(row_of(code)?.name)
}

/// Returns the row of a unit code, if it has one.
#[tactic(auto, unfolding(crate::specs::Fields::text, crate::specs::Units::unit_row))]
fn row_of(code: u8) -> Option<&'static UnitRow>
    ensures { option_map (λ row. seen_unit row.now) result ≡ unit_row code }
{
    find_unit(UNITS, code)
}

/// Returns the first row with this code, or `None` if no row has this code. The rows are a parameter so that the proof can name them.
fn find_unit(rows: &'static [UnitRow], code: u8) -> Option<&'static UnitRow>
    ensures { option_map (λ row. seen_unit row.now) result ≡ find (λ row. row.code == code) (map seen_unit rows.now) }
{
    rows.iter().find(|row| row.code == code)
}
