//! What stands at the end of each help.

/// What stands at the end of the program's help.
pub(crate) const NOTES: &str = "\
Statuses:
  0  done; a script's own refusals are answers
  1  an input is faulty or refused, a file can't be read or written, or there is no memory
  2  the command line is faulty

As SCRIPT or PAIRS, - is standard input; a file of this name is ./-. With --progress, long work says on
standard error how far it is, at most ten times a second.

A file that is made takes its name when it is whole, and replaces what has the name. docs/FORMATS.md has
the language of scripts, and the bytes of images and logs.";

pub(crate) const RUN_NOTES: &str = "\
DIR must be there. At the end of the run it gets 0.img, the opening, N.img of each image that the script
took, and log. Images of an earlier run stay, so use an empty folder.

With --live they are made while the script runs: what a command adds to the log is in DIR before the
command is answered, so that a kill loses nothing that was answered. With --sync it is on disk, so that a
stop of the machine doesn't either. DIR has no log and no image before.

Example: calcdb run bank.calc --open opening.img --out bank";

pub(crate) const LOAD_NOTES: &str = "\
Each line of PAIRS has a key and its value: #17 is a number, 'text the bytes of a text, x00ff bytes.

Example: calcdb load pairs.txt opening.img";

pub(crate) const MERGE_NOTES: &str = "Example: calcdb merge merged.img 1.img 2.img 3.img";

pub(crate) const RECOVER_NOTES: &str = "\
LOG may be cut off anywhere: its whole records count. The image is one to open the next run with.

Example: calcdb recover bank.calc bank/log opening.img bank/1.img bank/2.img";

pub(crate) const SHOW_NOTES: &str = "Example: calcdb show bank/log";
