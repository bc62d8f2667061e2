//! Tests the text that each error type displays for each variant, and the text of `--help`. No contract
//! covers these texts.
use lines::{PrintFault, WriteFault};
use session::{EditFault, RangeFault};
use std::alloc::Global;
use std::fmt::Display;
use std::process::Abort;
use tables::FolderFault;
use tool::{LineFault, ProgramFault, RunFault, settings};
use ucd::{Cause, ImageFault, TableFault};

// Returns whether a value is displayed as this text.
fn shows<T: Display>(alloc: Global, value: &T, text: &str) -> bool {
    value
        .to_string(alloc)
        .is_ok_and(|shown| shown.as_str() == text)
}

fn check<T: Display>(rt: &impl Abort, alloc: Global, rows: &[(T, &str)]) {
    for (fault, text) in rows {
        assert!(rt; shows(alloc, fault, text), "{text}");
    }
}

// The number of a table file, the line and the cause of a fault in the file, and the message.
static TABLE_FAULTS: [(usize, usize, Cause, &str); 11] = [
    (1, 1, Cause::NotAscii, "DerivedBidiClass.txt:1: cause 1"),
    (2, 9, Cause::CodePoint, "BidiBrackets.txt:9: cause 2"),
    (3, 10, Cause::Reversed, "BidiMirroring.txt:10: cause 3"),
    (4, 255, Cause::FieldCount, "LineBreak.txt:255: cause 4"),
    (
        5,
        256,
        Cause::Value,
        "DerivedGeneralCategory.txt:256: cause 5",
    ),
    (
        6,
        65_535,
        Cause::NamedBefore,
        "EastAsianWidth.txt:65535: cause 6",
    ),
    (7, 65_536, Cause::NotAscii, "emoji-data.txt:65536: cause 1"),
    (
        7,
        4_294_967_295,
        Cause::CodePoint,
        "emoji-data.txt:4294967295: cause 2",
    ),
    (
        1,
        4_294_967_296,
        Cause::Value,
        "DerivedBidiClass.txt:4294967296: cause 5",
    ),
    (
        4,
        18_446_744_073_709_551_615,
        Cause::NamedBefore,
        "LineBreak.txt:18446744073709551615: cause 6",
    ),
    (0, 0, Cause::Memory, "out of memory"),
];

#[test]
fn table_faults_name_the_file_the_line_and_the_cause(rt: HostRuntime) {
    for (file, line, cause, text) in &TABLE_FAULTS {
        let fault = TableFault {
            file: *file,
            line: *line,
            cause: *cause,
        };
        assert!(rt; shows(rt.alloc(), &fault, text), "{text}");
    }
}

static IMAGE_FAULTS: [(ImageFault, &str); 12] = [
    (ImageFault::Truncated, "the image is truncated"),
    (ImageFault::Magic, "not an image of tables"),
    (ImageFault::Format, "the image has another format"),
    (
        ImageFault::Version,
        "the image is of another version of Unicode",
    ),
    (ImageFault::Excess, "the image is too long"),
    (ImageFault::Checksum, "the checksum of the image is wrong"),
    (
        ImageFault::PageNumber,
        "a page number of the image is out of range",
    ),
    (ImageFault::Entry, "the image has invalid properties"),
    (ImageFault::Bracket, "the image has an invalid bracket"),
    (ImageFault::Mirror, "the image has an invalid mirror"),
    (
        ImageFault::Flags,
        "the brackets or mirrors of the image do not agree with its properties",
    ),
    (ImageFault::Memory, "out of memory"),
];

#[test]
fn image_faults_have_their_texts(rt: HostRuntime) {
    check(&rt, rt.alloc(), &IMAGE_FAULTS);
}

const TABLE_FAULT: TableFault = TableFault {
    file: 4,
    line: 70_000,
    cause: Cause::Value,
};

static FOLDER_FAULTS: [(FolderFault, &str); 4] = [
    (
        FolderFault::Unread("LineBreak.txt"),
        "cannot read LineBreak.txt",
    ),
    (
        FolderFault::Table(TABLE_FAULT),
        "LineBreak.txt:70000: cause 5",
    ),
    (
        FolderFault::Image(ImageFault::Magic),
        "cannot use tables.image: not an image of tables",
    ),
    (FolderFault::Memory, "out of memory"),
];

#[test]
fn folder_faults_have_their_texts(rt: HostRuntime) {
    check(&rt, rt.alloc(), &FOLDER_FAULTS);
}

// A number that needs more than 32 bits.
const BYTES: u64 = 4_294_967_297;

const WRITE: WriteFault = WriteFault { written: BYTES };

static PRINT_FAULTS: [(PrintFault, &str); 2] = [
    (PrintFault::Memory, "out of memory"),
    (
        PrintFault::Write(WRITE),
        "cannot write after 4294967297 bytes",
    ),
];

#[test]
fn print_faults_have_their_texts(rt: HostRuntime) {
    check(&rt, rt.alloc(), &PRINT_FAULTS);
    assert!(rt; shows(rt.alloc(), &WRITE, "cannot write after 4294967297 bytes"));
}

static RANGE_FAULTS: [(RangeFault, &str); 2] = [
    (RangeFault::OutOfRange, "out of range"),
    (
        RangeFault::Write(WRITE),
        "cannot write after 4294967297 bytes",
    ),
];

#[test]
fn range_faults_have_their_texts(rt: HostRuntime) {
    check(&rt, rt.alloc(), &RANGE_FAULTS);
}

static EDIT_FAULTS: [(EditFault, &str); 5] = [
    (EditFault::OutOfRange, "out of range"),
    (EditFault::WidthOutOfRange, "width out of range"),
    (EditFault::TextTooLong, "text too long"),
    (EditFault::ParagraphTooLong, "paragraph too long"),
    (EditFault::NoMemory, "out of memory"),
];

#[test]
fn edit_faults_have_their_texts(rt: HostRuntime) {
    check(&rt, rt.alloc(), &EDIT_FAULTS);
}

static RUN_FAULTS: [(RunFault, &str); 7] = [
    (RunFault::Read, "cannot read"),
    (
        RunFault::Write(BYTES),
        "cannot write after 4294967297 bytes",
    ),
    (RunFault::NotUtf8(BYTES), "not UTF-8 at byte 4294967297"),
    (RunFault::ParagraphTooLong, "paragraph too long"),
    (RunFault::BadLine(BYTES), "bad script line 4294967297"),
    (RunFault::Memory, "out of memory"),
    (RunFault::TextTooLong, "text too long"),
];

#[test]
fn run_faults_have_their_texts(rt: HostRuntime) {
    check(&rt, rt.alloc(), &RUN_FAULTS);
}

#[test]
fn line_faults_have_their_texts(rt: HostRuntime) {
    let rows = [
        (
            LineFault::Directions,
            "fribidi: more than one base direction",
        ),
        (LineFault::Unicode, "fribidi: --unicode takes 15.0 or 17.0"),
        (LineFault::ScriptFiles, "fribidi: --script takes one file"),
        (LineFault::Queries, "fribidi: --queries needs --script"),
        (LineFault::NoMemory, "fribidi: out of memory"),
    ];
    check(&rt, rt.alloc(), &rows);
}

#[test]
fn program_faults_have_their_texts(rt: HostRuntime) {
    let rows = [
        (
            ProgramFault::Line(LineFault::Queries),
            "fribidi: --queries needs --script",
        ),
        (
            ProgramFault::TableFile("BidiMirroring.txt"),
            "fribidi: cannot read BidiMirroring.txt",
        ),
        (
            ProgramFault::Table(TABLE_FAULT),
            "fribidi: LineBreak.txt:70000: cause 5",
        ),
        (
            ProgramFault::TableImage(ImageFault::Entry),
            "fribidi: cannot use tables.image: the image has invalid properties",
        ),
        (ProgramFault::Run(RunFault::Read), "fribidi: cannot read"),
    ];
    check(&rt, rt.alloc(), &rows);
}

const HELP: &str = "Wrap bidirectional text and print its lines in visual order

Usage: fribidi [OPTIONS] --ucd <DIR> [FILE]...

Arguments:
  [FILE]...  Files to lay out, each as a separate text [default: standard input]

Options:
      --ucd <DIR>          Read the Unicode table files from DIR [default: the installed files, if any]
      --width <N>          Wrap lines at N columns, from 1 to 65535 [default: 80]
      --tabs <N>           Set a tab stop every N columns, from 1 to 255
      --unicode <VERSION>  Follow Unicode VERSION, 15.0 or 17.0 [default: 15.0]
      --rtl                Lay out every paragraph right-to-left
      --ltr                Lay out every paragraph left-to-right
      --wrtl               Lay out paragraphs without a strong character right-to-left
      --wltr               Lay out paragraphs without a strong character left-to-right (default)
      --nobreak            Break lines at mandatory breaks only
      --reordernsm         Reorder nonspacing marks to follow their base in right-to-left text
      --whole-numbers      Do not break lines inside numbers such as $1,234.56
      --reorder-clusters   Keep the characters of grapheme clusters in order in right-to-left text
      --show-spaces        Show spaces at the end of lines, up to the width
      --line-separators    End paragraphs at LF, CR and CRLF only
      --nopad              Do not right-align lines of right-to-left paragraphs
      --nomirror           Do not mirror brackets and other paired characters
      --novisual           Do not print the visual lines
      --basedir            Print LTR or RTL after the first line of each paragraph
      --ltov               Print the logical-to-visual position map of each line
      --vtol               Print the visual-to-logical position map of each line
      --levels             Print the embedding level of each character
      --script <FILE>      Run an edit script on one text file
      --queries            Allow queries in the edit script
  -h, --help               Print help
  -V, --version            Print version

Unicode 15.0 or 17.0
";

// Returns whether the arguments are refused with this message.
fn refuses(alloc: Global, arguments: &[&str], text: &str) -> bool {
    settings(alloc, arguments).is_err_and(|fault| shows(alloc, &fault, text))
}

#[test]
fn help_has_the_text_of_each_argument(rt: HostRuntime) {
    assert!(rt; refuses(rt.alloc(), &["--help"], HELP));
}

#[test]
fn refused_arguments_have_the_message_of_clap(rt: HostRuntime) {
    let text = "error: invalid value '0' for '--tabs <N>': 0 is not in 1..=255

For more information, try '--help'.
";
    assert!(rt; refuses(rt.alloc(), &["--ucd", "D", "--tabs", "0"], text));
}
