//! The texts of the program's help.

pub mod stations;
pub mod words;

/// What the help of a command shows.
#[derive(Clone, Copy)]
pub(super) struct HelpPage<'a> {
    /// What the command does, in one line.
    pub about: &'a str,
    /// The usage line of the command.
    pub usage: &'a str,
    /// What the command reads and what it writes.
    pub help: &'a str,
    /// An example of the command, with what it writes.
    pub example: &'a str,
}

pub(super) const HART_ABOUT: &str =
    "Find, explain, write and answer HART messages, and carry out scripts of them";

pub(super) const HART_HELP: &str = "\
For the input and the output of a command, and an example: hart SUBCOMMAND --help

Exit status 0: the work was done.
Exit status 1: a fault; one line on standard error names it.
Exit status 2: the command line is invalid, or help was asked for.";

pub(super) const ANSWER: HelpPage = HelpPage {
    about: "Answer one message, in hex, from standard input",
    usage: "hart answer [--image HEX] < FILE",
    help: "\
Answer one message as the simulated device does.

Input (stdin): what the device hears, the message with its preamble bytes FF
and its check byte, and noise around it. Each byte is two hex digits of either
case, and after them, if the byte came damaged, ! and two hex digits of fault
bits (see hart dump --help). Spaces, tabs and line ends may stand between
bytes. The input has at most 1048576 bytes of text.

Output (stdout): the reply of the device in upper case hex, or nothing if the
device is silent. It answers command 0 at its polling address, any command at
its own address 37420A1B2C, and, sent to all, command 11 with its tag and
command 21 with its long tag. If no message came whole, but a request to its
own address came with all its bytes, damaged only after that address, and
nothing before it looks like another message, the reply says how: its first
status byte is 80, joined with the fault bits of the bytes, and with 08 if the
check byte does not fit; the second is 00. In every other case the device is
silent: if it hears no message, or more than one; if the message is a reply or
has expansion bytes; if it is another command at the polling address or sent to
all; and if it was sent to another address, or names another tag or long tag.

If the input holds anything but such bytes, is longer than that, or fails,
nothing is written, and standard error says why: bad hex at N, a place in the
text of the input, counted from 0; input too long; read fault.

Each run starts a new device with polling address 0. Its tag is eight spaces,
820820820820 in command 11; its long tag is 32 spaces, 32 bytes 20 in command
21. With --image the device goes on from an image, which hart sim writes in its
last line. If that is no image nothing is read, and standard error says why:
bad image: version, length or field; bad hex at N, a place in the image,
counted from 0.",
    example: "\
Examples:
  echo \"FF FF 82 B7 42 0A 1B 2C 10 00 5A\" | hart answer
writes
  FF FF FF FF FF 86 B7 42 0A 1B 2C 10 05 00 00 00 00 00 5B
and for a write, which a protected device refuses,
  image=$(echo protect on | hart sim | sed -n 's/^image //p')
  echo \"FF FF 82 B7 42 0A 1B 2C 13 03 01 23 45 3D\" | hart answer --image $image
writes
  FF FF FF FF FF 86 B7 42 0A 1B 2C 13 02 07 00 58",
};

pub(super) const DUMP: HelpPage = HelpPage {
    about: "List the messages in what was heard, in hex, from standard input",
    usage: "hart dump < FILE",
    help: "\
List the messages in what was heard on a line.

Input (stdin): the bytes that were heard, noise among them. Each is two hex
digits of either case, and after them, if the receiver found it damaged, ! and
two hex digits of fault bits, as in FF!40. The fault bits are
  40  vertical parity
  20  overrun
  10  framing
  02  buffer overflow
or a sum of these, in hex. Spaces, tabs and line ends may stand between bytes.
0x before a byte, and commas or : between bytes, are not taken: remove them
first. The input has at most 1048576 bytes of text. Raw bytes are not hex: a
capture of them goes in through xxd -p.

Output (stdout): a line for each message that came without damage, of nine
fields with one space between them.
  START      place of its delimiter, the byte after its preamble bytes FF,
             counted from 0
  END        place after its check byte
  KIND       STX for a request of a master, ACK for a reply of a device
  WHO        the master: P for the primary, S for the secondary
  BURST      burst bit, 0 or 1
  ADDRESS    @ and the polling address; or ten hex digits, four of the type of
             the device and six of its id; or all, for every device
  EXPANSION  expansion bytes in hex, or - for none
  COMMAND    number of the command
  PAYLOAD    data in hex, or - for none; an ACK begins with two status bytes
A message is missing if fewer than two preamble bytes FF came whole before it,
if any byte of it is damaged, if its check byte does not fit, if it is cut
short by the end of the input, if it stands within another message, if it is an
ACK with fewer than two bytes of payload, or if its delimiter has bit 4 or 3
set, or in bits 2 to 0 neither 2 (STX) nor 6 (ACK), as that of a burst message.

If the input holds anything else, is longer, or fails, the lines of the
messages before are written, and standard error says why: bad hex at N, a place
in the text of the input, counted from 0; input too long; read fault.",
    example: "\
Examples:
  hart dump < FILE
for a file of hex text;
  xxd -p FILE | hart dump
for one of raw bytes, which are not hex;
  tr ',:' '  ' < FILE | sed 's/0[xX]//g' | hart dump
for bytes written as FF:82 or 0xFF, 0x82;
  echo \"FF FF 02 80 00 00 82\" | hart dump
writes
  2 7 STX P 0 @0 - 0 -",
};

pub(super) const EXPLAIN: HelpPage = HelpPage {
    about: "Explain messages in words, in hex, from standard input",
    usage: "hart explain [--raw] [--json] < FILE",
    help: "\
Say in words what was heard on a line, and why a message is missing.

Input (stdin): the bytes that were heard, noise among them, as hart dump reads
them (see hart dump --help), but of any length. What is decided is written
before more is read, also while a line is being heard. An item / says that the
line fell silent: what was heard before it is explained as ended, and places go
on counting after it. An @ and a word, as @12:00:01, date what follows: lines
with places then begin with the last date before their place. With --raw the
input is the bytes themselves, and not hex.

Output (stdout): for each message that hart dump lists, a line with its two
places, who speaks to whom, and the command; and under it, after four spaces, a
line for each thing that the message says:
  burst bit         if it is set
  expansion bytes   if there are any, in hex
  response code and device status, or communication faults
                    of a reply: what its two status bytes say, by names, or
                    none if no bit with a name is set
  fields            of the data that the command takes, each by its name:
                    numbers in decimal, units also by name, texts in double
                    quotes, dates, and everything else, floats among it, as
                    bytes in hex
  ignored           what comes after those, in hex; all data of a reply with
                    communication faults
  not read (code N) data after another response code than 0, in hex
  data              of a command that hart does not know, or too few, in hex
and if the data do not fit the command: too few data; refused, with the response
code that refuses them and why; data that are no reply.
Bytes in hex begin with 0x, as 0x41C80000, but for the ten digits that name a
device. All other numbers are decimal.
For each place at which a message seems to start and none stands, a line with
that place and why. A message seems to start after two preamble bytes FF that
came whole; of a whole message after one FF alone it says so, if that ends
before two FF in a row begin. If all up to its command came whole, a second line
says what the message seems to be.
All stand in the order of their places, which are counted from 0.

If the input holds anything else, or fails, what comes before is explained, and
standard error says why: bad hex at N, a place in the text of the input, counted
from 0; read fault.",
    example: "\
Examples:
  echo \"FF FF 86 B7 42 0A 1B 2C 13 05 00 40 01 23 45 7F\" | hart explain
writes
  2-16: reply of device 37420A1B2C to the primary master, Command 19, write final assembly number
      response code: 0, success
      device status: configuration changed
      final assembly number: 0x012345
and with a byte changed in the second of two messages,
  echo \"FF FF 02 80 00 00 82 FF FF 02 80 00 00 83\" | hart explain
writes
  2-7: request of the primary master to the device at polling address 0, Command 0, read unique identifier
  9: no message: the check byte is 0x83 at 13, and 0x82 would fit
      seems: request of the primary master to the device at polling address 0, Command 0, read unique identifier",
};

pub(super) const ENCODE: HelpPage = HelpPage {
    about: "Write a request to a device, in hex",
    usage: "hart encode [OPTIONS] <WHO> <ADDRESS> <COMMAND> [DATA]",
    help: "\
Write a request of a master to a device, ready to be sent.

Input: the words of the command line say who asks, which device, with which
command, and the data of the command. Standard input is not read.

Output (stdout): the message in upper case hex, with its preamble bytes FF and
its check byte. If a word cannot be read nothing is written, and standard error
gives its number, as in bad word 2: 1 is WHO, 2 ADDRESS, 3 COMMAND, 4 DATA.",
    example: "\
Examples:
  hart encode P @0 0
writes
  FF FF FF FF FF 02 80 00 00 82
and with data, a write of the final assembly number 012345,
  hart encode P 37420A1B2C 19 012345
writes
  FF FF FF FF FF 82 B7 42 0A 1B 2C 13 03 01 23 45 3D",
};

pub(super) const REQUEST: HelpPage = HelpPage {
    about: "Write a request by the names of its fields, in hex",
    usage: "hart request [OPTIONS] <WHO> <ADDRESS> <COMMAND> [FIELD]...",
    help: "\
Write a request of a master to a device, ready to be sent, by the names and
values of its fields, as hart explain shows them.

Input: the words of the command line say who asks, which device, with which
command, and then each field of the command's request once, in any order, as
NAME=VALUE with _ for each space of the name. Standard input is not read.

  number       in decimal
  bytes        0x and two hex digits for each byte
  packed text  capital letters, digits, spaces and signs; spaces are added
  long tag     characters of Latin-1, spaces are added; or 0x and 64 digits
  date         2026-11-27, or \"not set\"

Output (stdout): the message in upper case hex, with its preamble bytes FF and
its check byte. If a word cannot be read nothing is written, and standard error
gives its number and why, as in bad word 4: unknown field: 1 is WHO, 2 ADDRESS,
3 COMMAND, 4 the first field.",
    example: "\
Examples:
  hart request P 37420A1B2C 19 final_assembly_number=0x012345
writes
  FF FF FF FF FF 82 B7 42 0A 1B 2C 13 03 01 23 45 3D
and with texts and a date, a write of the tag, the descriptor and the date,
  hart request P 37420A1B2C 18 tag=FT-1204 descriptor=\"FEED PUMP\" \\
    date=2026-11-27",
};
