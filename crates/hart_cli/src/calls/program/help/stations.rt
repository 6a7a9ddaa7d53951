//! The help for `hart serve`, `hart master` and `hart sim`.

use super::HelpPage;

pub const SERVE: HelpPage = HelpPage {
    about: "Serve as a device, a line for each line, until the input ends",
    usage: "hart serve [--image HEX]",
    help: "\
Serve as the simulated device, a line for each line, until the input ends.

Input (stdin): lines, each of which is one of these.
  HEX              what the device hears at once, as in hart answer; an empty
                   line is hearing nothing
  restart          the device was without power
  protect on, protect off
                   the write protection of the device
  image            asks what the device holds
  counter          asks for its configuration change counter
A line has at most 1048576 bytes, and a carriage return at its end does not
count. The last line needs no line feed.

Output (stdout): a line for each line, out before more is waited for.
  HEX              the reply of the device, as hart answer writes it
  -                the device is silent
  ok               after restart and protect
  image HEX, counter N
                   as hart sim writes them in its last two lines
  bad line: bad hex at N
                   it is none of these lines: N is a place in it, counted
                   from 0; nothing has changed, and serving goes on
  bad line: too long
                   it has more bytes than a line may have; nothing has changed,
                   and serving goes on

The device starts as a new one, or with --image from an image, as in hart
answer. It keeps what it is told until the input ends: a write is read again, a
restart is shown once to each master. What serving takes of memory does not
grow with the number of lines.

The input has no limit. Standard error says why serving ended if the input did
not end: read fault; write fault. Before the first line it may say: out of
memory; what is wrong with the image, as in hart answer.",
    example: "\
Examples:
  printf '%s\\n' restart 'FF FF 02 80 00 00 82' counter | hart serve
writes
  ok
  FF FF FF FF FF 06 80 00 18 00 20 FE 37 42 05 07 01 02 18 00 0A 1B 2C 05 04 00 00 00 00 37 00 37 01 11
  counter 0
and as a device at a pseudo-terminal, with each line of hex a delivery,
  socat PTY,link=device,rawer EXEC:'hart serve'",
};

pub const MASTER: HelpPage = HelpPage {
    about: "Decide as a master, a line for each line, until the input ends",
    usage: "hart master [OPTIONS]",
    help: "\
Decide as a master what to send, which reply to accept and when to give up, a
line for each line, until the input ends. Ports and clocks are the caller's.

Input (stdin): lines, each of which is one of these.
  submit ADDRESS COMMAND [DATA]
                   take a request in hand, given as in hart encode
  ask ADDRESS COMMAND [NAME=VALUE..]
                   take a request in hand, given as in hart request
  send             ask for the message that is due
  heard ITEMS      hear a delivery, as in hart answer
  tick N           N character times of silence have passed, 0 to 255
Words have spaces between them; if a line has a tab, they have tabs between
them instead, so that a value can have spaces. A line has at most 64 words and
1048576 bytes, and a carriage return at its end does not count. The last line
needs no line feed.

Output (stdout): a line for each line, out before more is waited for.
  ok               the request is in hand
  refused: WHY     it is not: a request is pending, or wrong address
  send HEX         the message that is due; its reply is awaited from now on
  answered N HEX   the only message of the delivery is the reply to the request
                   in hand, which was sent N times; HEX is its payload, which
                   begins with the two status bytes
  retry            no reply came in time: the message is due again
  noreply N        none came to any of N sendings: the request is given up
  -                nothing of these
  bad line: bad word N
                   the word with this number, counted from 1, cannot be read, is
                   missing or is one too many; a reason may follow, as in hart
                   request; nothing has changed, and the session goes on
  bad line: bad hex at N
                   N is a place in the line, counted from 0; nothing has changed
  bad line: too long
                   the line has too many bytes; nothing has changed

The input has no limit. Standard error says why the session ended if the input
did not end: read fault; write fault. Before the first line it may say: bad
word 1, if WHO is neither P nor S; out of memory.",
    example: "\
Examples:
  printf '%s\\n' 'submit @0 0' send 'tick 40' send 'tick 40' |
    hart master --retries 1
writes
  ok
  send FF FF FF FF FF FF FF FF FF FF FF FF FF FF FF FF FF FF FF FF 02 80 00 00 82
  retry
  send FF FF FF FF FF FF FF FF FF FF FF FF FF FF FF FF FF FF FF FF 02 80 00 00 82
  noreply 2",
};

pub const SIM: HelpPage = HelpPage {
    about: "Carry out a script of two masters and a device from standard input",
    usage: "hart sim [--image HEX] < FILE",
    help: "\
Carry out a script on a line with the simulated device and two masters.

Input (stdin): a script, a line for each event.
  submit WHO ADDRESS COMMAND [DATA]  a master takes a request in hand, which it
                                     sends four times at most
  turn WHO UP DOWN                   a master sends what it has in hand; the
                                     device hears UP, and both masters DOWN
  protect on, protect off            the write protection of the device
  noise ITEMS                        all three hear these bytes
  restart                            the device was without power
WHO is P for the primary master and S for the secondary. ADDRESS is @ and the
polling address, @0 to @63; or ten hex digits, four of the type of the device
and six of its id; or all, for every device. COMMAND is 0 to 3, 6 to 9, 11 to
22, 38 or 48; another one makes a bad line. DATA are hex, and such as COMMAND
takes. UP and DOWN are ok for what was sent, lost for nothing, or the bytes
that are heard in its place: like ITEMS, two hex digits for each byte and, if
it came damaged, ! and two hex digits of fault bits (see hart dump --help),
with no space between bytes. Words have spaces or tabs between them. Empty
lines, and lines that begin with #, are no events and are passed over. The
script has at most 1048576 bytes.

Output (stdout): written once the script has come to its end.
  P, S or D, and two words   each message on the line, in order: who spoke it,
                             the primary master, the secondary or the device;
                             how many preamble bytes FF it had; the rest in hex
  N answered SENDINGS CODE STATUS DATA
                             submission N, counted from 1, got a reply: after
                             so many sendings, with this response code and
                             device status in hex, and these data in hex, or -
                             for none
  N noreply SENDINGS         it was given up after so many sendings
  N unfinished SENDINGS      it is still in hand, sent so many times
  N refused FAULT            the master did not take it: 2, it had another in
                             hand; 3, the command may not go to the address
  counter N                  the configuration change counter of the device
  image HEX                  02, and then in hex the polling address, the loop
                             current mode, message, tag, descriptor, date,
                             final assembly number, long tag, counter, and a
                             byte of flags: 1 and 2, the configuration has
                             changed for the primary and the secondary master;
                             4, the device is protected

Each run starts a new device. With --image and the image of the last line of
one run, the next begins where that run ended, with no cold start bit set. An
image of version 1 begins with 01 and has no long tag: the long tag of the
device is then its tag and 24 spaces. If HEX is no image nothing is read, and
standard error says why: bad image: version, length or field; bad hex at N, a
place in the image, counted from 0.

If no output is written, standard error says why.
  bad line N                 every line counts, an empty one too, from 1; why a
                             line is bad stands above, under Input
  undetected damage at event N, LEG
                             events alone count, from 0; LEG is up, down or
                             noise: what is heard there has another message in
                             it than the one that was sent, or more than one
  input too long, read fault",
    example: "\
Examples:
  printf 'submit P 37420A1B2C 19 012345\\nturn P ok ok\\n' > script.txt
  hart sim < script.txt | grep -v image
writes
  P 20 82B7420A1B2C13030123453D
  D 5 86B7420A1B2C130500400123457F
  1 answered 1 00 40 012345
  counter 1
and the next script goes on from the image of that one:
  image=$(hart sim < script.txt | sed -n 's/^image //p')
  printf 'submit P 37420A1B2C 16\\nturn P ok ok\\n' > next.txt
  hart sim --image $image < next.txt | grep -v image
writes
  P 20 82B7420A1B2C10005A
  D 5 86B7420A1B2C100500400123457C
  1 answered 1 00 40 012345
  counter 1",
};
