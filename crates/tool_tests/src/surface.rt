//! Tests the public calls of `tool`. Each call has one test, which makes the call by its full path, names the
//! types, and checks one example.
use device::{FromRead, ToWrite};
use oom_calls::sessions::open;
use oom_calls::tables::{engine, let_go};
use oom_calls::{Printed, Writer};
use std::alloc::Global;

fn print_text(
    alloc: Global,
    engine: &mut lines::Engine,
    page: &mut Printed,
) -> Result<(), tool::RunFault> {
    let print = lines::Print::default();
    let mut reader = FromRead::new(b"abc\nd".as_slice());
    let mut writer = ToWrite::new(Writer { page });
    tool::run_text(alloc, &mut reader, &mut writer, engine, 80, &print)
}

#[test]
fn run_text_prints_each_line(rt: HostRuntime) {
    let mut page = Printed::new();
    let printed = match engine(rt.alloc()) {
        Ok(engine) => prints_text(rt.alloc(), engine, &mut page),
        Err(_) => false,
    };
    assert!(rt; printed && page.is_one_of(&[b"abc\nd\n"]));
}

fn prints_text(alloc: Global, engine: lines::Engine, page: &mut Printed) -> bool {
    let mut engine = engine;
    let result: Result<(), tool::RunFault> = print_text(alloc, &mut engine, page);
    let_go(engine);
    result == Ok(())
}

// Runs a script on the text "ab\ncd\nef".
fn run_script(
    alloc: Global,
    session: session::Session<store::TreeStore<session::Kept>>,
    page: &mut Printed,
) -> Result<(), tool::RunFault> {
    let print = lines::Print::default();
    let mut reader = FromRead::new(b"insert 4 x\\ny\nshow\n".as_slice());
    let mut writer = ToWrite::new(Writer { page });
    tool::run_script(alloc, &mut reader, &mut writer, session, &print)
}

#[test]
fn run_script_replies_to_each_line(rt: HostRuntime) {
    let mut page = Printed::new();
    let result: Result<(), tool::RunFault> = match open(rt.alloc()) {
        Ok(session) => run_script(rt.alloc(), session, &mut page),
        Err(_) => Err(tool::RunFault::Memory),
    };
    assert!(rt; result == Ok(()) && page.is_one_of(&[b"@ 1 1 2\nab\ncx\nyd\nef\n"]));
}

const ARGUMENTS: [&str; 8] = [
    "--ucd",
    "D",
    "--width=5",
    "--rtl",
    "--nobreak",
    "--levels",
    "--script=S",
    "T",
];

// Returns whether a check holds for the settings of these arguments, or `false` if the arguments are refused.
fn of_settings<F: FnOnce(&tool::Settings<'_>) -> bool>(alloc: Global, check: F) -> bool
    requires { F.IsAlwaysCallable check }
{
    match tool::settings(alloc, &ARGUMENTS) {
        Ok(settings) => check(&settings),
        Err(_) => false,
    }
}

#[test]
fn settings_need_nothing_but_a_folder(rt: HostRuntime) {
    let arguments: &[&str] = &["--ucd", "D"];
    let settings: Result<tool::Settings<'_>, tool::LineFault> = tool::settings(
        rt.alloc(),
        arguments,
    );
    assert!(rt; settings.is_ok_and(|settings| settings.width == 80));
}

#[test]
fn ucd_is_the_folder(rt: HostRuntime) {
    assert!(rt;
        of_settings(rt.alloc(), |settings| {
            let ucd: &str = settings.ucd;
            ucd == "D"
        })
    );
}

#[test]
fn width_is_the_number_of_columns(rt: HostRuntime) {
    assert!(rt;
        of_settings(rt.alloc(), |settings| {
            let width: u16 = settings.width;
            width == 5
        })
    );
}

#[test]
fn options_have_the_direction_and_nobreak(rt: HostRuntime) {
    let wanted = lines::Options {
        base: bidi::Base::Rtl,
        nobreak: true,
        ..lines::Options::default()
    };
    assert!(rt;
        of_settings(rt.alloc(), |settings| {
            let options: lines::Options = settings.options;
            options == wanted
        })
    );
}

#[test]
fn print_has_levels(rt: HostRuntime) {
    let wanted = lines::Print {
        levels: true,
        ..lines::Print::default()
    };
    assert!(rt;
        of_settings(rt.alloc(), |settings| {
            let print: lines::Print = settings.print;
            print == wanted
        })
    );
}

#[test]
fn script_is_the_name_of_a_file(rt: HostRuntime) {
    assert!(rt;
        of_settings(rt.alloc(), |settings| {
            let script: Option<&str> = settings.script;
            script == Some("S")
        })
    );
}

#[test]
fn files_are_the_other_arguments(rt: HostRuntime) {
    assert!(rt;
        of_settings(rt.alloc(), |settings| {
            let files: &[&str] = &settings.files;
            files.len() == 1 && files.first() == Some(&"T")
        })
    );
}

// Returns why arguments are refused, or `None` if they are accepted.
fn fault_of(alloc: Global, arguments: &[&str]) -> Option<tool::LineFault> {
    match tool::settings(alloc, arguments) {
        Ok(_) => None,
        Err(fault) => Some(fault),
    }
}

#[test]
fn arguments_without_a_folder_are_refused_by_clap(rt: HostRuntime) {
    let fault = fault_of(rt.alloc(), &["T"]);
    assert!(rt; matches!(fault, Some(tool::LineFault::Words(_))));
}

#[test]
fn two_directions_are_refused(rt: HostRuntime) {
    let fault = fault_of(rt.alloc(), &["--ucd", "D", "--rtl", "--ltr"]);
    assert!(rt; matches!(fault, Some(tool::LineFault::Directions)));
}

#[test]
fn script_without_a_file_is_refused(rt: HostRuntime) {
    let fault = fault_of(rt.alloc(), &["--ucd", "D", "--script", "S"]);
    assert!(rt; matches!(fault, Some(tool::LineFault::ScriptFiles)));
}

// Returns whether the program ends with this status and message after a fault.
fn ends(alloc: Global, fault: tool::ProgramFault, status: u8, message: &str) -> bool {
    let found: u8 = fault.status();
    let shown = fault.to_string(alloc);
    found == status && shown.is_ok_and(|shown| shown.as_str() == message)
}

#[test]
fn program_fault_of_a_wrong_command_line_has_status_2(rt: HostRuntime) {
    let fault = tool::ProgramFault::Line(tool::LineFault::Directions);
    assert!(rt;
        ends(
            rt.alloc(),
            fault,
            2,
            "fribidi: more than one base direction"
        )
    );
}

#[test]
fn program_fault_without_memory_has_status_1(rt: HostRuntime) {
    let fault = tool::ProgramFault::Line(tool::LineFault::NoMemory);
    assert!(rt; ends(rt.alloc(), fault, 1, "fribidi: out of memory"));
}

#[test]
fn program_fault_of_an_unread_table_file_names_it(rt: HostRuntime) {
    let fault = tool::ProgramFault::TableFile("LineBreak.txt");
    assert!(rt; ends(rt.alloc(), fault, 1, "fribidi: cannot read LineBreak.txt"));
}

#[test]
fn program_fault_of_a_table_names_file_line_and_cause(rt: HostRuntime) {
    let fault = tool::ProgramFault::Table(ucd::TableFault {
        file: 1,
        line: 2,
        cause: ucd::Cause::NamedBefore,
    });
    assert!(rt;
        ends(
            rt.alloc(),
            fault,
            1,
            "fribidi: DerivedBidiClass.txt:2: cause 6"
        )
    );
}

#[test]
fn program_fault_of_an_image_names_it_and_its_cause(rt: HostRuntime) {
    let fault = tool::ProgramFault::TableImage(ucd::ImageFault::Checksum);
    assert!(rt;
        ends(
            rt.alloc(),
            fault,
            1,
            "fribidi: cannot use tables.image: the checksum of the image is wrong"
        )
    );
}

// Returns whether the program ends with status 1 and this message after a run fails with this fault.
fn run_ends(alloc: Global, fault: tool::RunFault, message: &str) -> bool {
    ends(alloc, tool::ProgramFault::Run(fault), 1, message)
}

#[test]
fn read_fault_has_no_number(rt: HostRuntime) {
    assert!(rt; run_ends(rt.alloc(), tool::RunFault::Read, "fribidi: cannot read"));
}

#[test]
fn write_fault_has_the_bytes_written(rt: HostRuntime) {
    let written: u64 = 2;
    let fault = tool::RunFault::Write(written);
    assert!(rt; run_ends(rt.alloc(), fault, "fribidi: cannot write after 2 bytes"));
}

#[test]
fn not_utf8_fault_has_the_place_of_the_byte(rt: HostRuntime) {
    let place: u64 = 3;
    let fault = tool::RunFault::NotUtf8(place);
    assert!(rt; run_ends(rt.alloc(), fault, "fribidi: not UTF-8 at byte 3"));
}

#[test]
fn paragraph_too_long_fault_has_no_number(rt: HostRuntime) {
    let fault = tool::RunFault::ParagraphTooLong;
    assert!(rt; run_ends(rt.alloc(), fault, "fribidi: paragraph too long"));
}

#[test]
fn bad_line_fault_has_the_number_of_the_line(rt: HostRuntime) {
    let line: u64 = 2;
    let fault = tool::RunFault::BadLine(line);
    assert!(rt; run_ends(rt.alloc(), fault, "fribidi: bad script line 2"));
}

#[test]
fn memory_fault_has_no_number(rt: HostRuntime) {
    assert!(rt; run_ends(rt.alloc(), tool::RunFault::Memory, "fribidi: out of memory"));
}

#[test]
fn text_too_long_fault_has_no_number(rt: HostRuntime) {
    assert!(rt;
        run_ends(
            rt.alloc(),
            tool::RunFault::TextTooLong,
            "fribidi: text too long"
        )
    );
}
