//! Converts the settings to tables, layout options and the form of the output.
use crate::end::End;
use bidi::Base;
use lines::Options;
use program_input::installed_folder;
use regex::Regex;
use std::env;
use std::env::VarError;
use tables::{FolderFault, in_folder_as, installed_as};
use terminal::{Form, Prefix};
use terminal_options::{Direction, Marks, Settings, Width};
use ucd::{Tables, Version};

// The width if the terminal's width is not known.
const USUAL_WIDTH: u16 = 80;

// The folder of a version's installed tables, relative to the folder of the program.
fn folder_of(version: Version) -> &'static str {
    match version {
        Version::V15_0 => "../../share/hordguli/ucd",
        Version::V17_0 => "../../share/hordguli/ucd-17.0",
    }
}

/// Returns the layout options that the settings specify.
pub(crate) fn options_of(settings: &Settings<'_>) -> Options {
    Options {
        base: base_of(settings.direction),
        nobreak: false,
        reordernsm: settings.marks == Marks::After,
        whole_numbers: settings.whole_numbers,
        reorder_clusters: settings.marks == Marks::Clusters,
        show_spaces: settings.show_spaces,
        tab_width: settings.tab_width,
    }
}

fn base_of(direction: Direction) -> Base {
    match direction {
        Direction::Auto | Direction::File => Base::WeakLtr,
        Direction::RtlAuto => Base::WeakRtl,
        Direction::Ltr => Base::Ltr,
        Direction::Rtl => Base::Rtl,
    }
}

/// Compiles the pattern of `--prefix` so that it matches only at the start of a text.
pub(crate) fn pattern_of(rt: &HostRuntime, text: &str) -> Result<Regex, End> {
    check_pattern(rt, text)?;
    let Ok(anchored) = format!(in rt.alloc(); "\\A(?:{text})") else {
        return Err(End::Memory);
    };
    Regex::new(rt.alloc(), &anchored).map_err(pattern_end)
}

// Refuses a pattern that is valid only inside parentheses, such as `a)(b`.
fn check_pattern(rt: &HostRuntime, text: &str) -> Result<(), End> {
    let _pattern = Regex::new(rt.alloc(), text).map_err(pattern_end)?;
    Ok(())
}

fn pattern_end(error: regex::Error) -> End {
    match error {
        regex::Error::OutOfMemory => End::Memory,
        error => End::Pattern(error),
    }
}

/// Returns the form of the output that the settings specify.
pub(crate) fn form_of<'a>(
    rt: &HostRuntime,
    settings: &Settings<'_>,
    prefix: Prefix<'a>,
) -> Result<Form<'a>, End> {
    Ok(Form {
        width: width_of(rt, settings.width)?,
        nopad: settings.nopad,
        nomirror: settings.nomirror,
        basedir: settings.basedir,
        escapes: settings.escapes,
        strict: settings.strict,
        prefix,
    })
}

fn width_of(rt: &HostRuntime, width: Width) -> Result<u16, End> {
    match width {
        Width::Columns(n) => Ok(n),
        Width::Auto => terminal_width(rt),
        Width::Unlimited => Ok(0),
    }
}

// Returns the number of columns in `COLUMNS`, or 80 if that is not a number from 1 to 65,535.
fn terminal_width(rt: &HostRuntime) -> Result<u16, End> {
    match env::var(rt, "COLUMNS") {
        Ok(columns) => Ok(columns_in(&columns)),
        Err(VarError::OutOfMemory) => Err(End::Memory),
        Err(_) => Ok(USUAL_WIDTH),
    }
}

fn columns_in(text: &str) -> u16 {
    match text.parse::<u16>() {
        Ok(columns) if columns > 0 => columns,
        _ => USUAL_WIDTH,
    }
}

/// Reads the tables from the folder in the settings, or the installed tables if no folder is set.
pub(crate) fn tables_of(rt: &HostRuntime, settings: &Settings<'_>) -> Result<Tables, End> {
    match settings.ucd {
        Some(folder) => in_folder_as(rt, settings.unicode, folder).map_err(table_fault),
        None => installed_tables(rt, settings.unicode),
    }
}

/// If `line_separators` is true, returns tables in which only LF, CR and CRLF end paragraphs. Otherwise,
/// returns `tables`.
pub(crate) fn separated(
    rt: &HostRuntime,
    tables: Tables,
    line_separators: bool,
) -> Result<Tables, End> {
    if !line_separators {
        return Ok(tables);
    }
    match tables.with_line_separators(rt.alloc()) {
        Ok(separated) => Ok(separated),
        Err(_) => Err(End::Memory),
    }
}

fn installed_tables(rt: &HostRuntime, version: Version) -> Result<Tables, End> {
    match installed_folder(rt, folder_of(version), version) {
        Ok(Some(folder)) => installed_as(rt, version, folder.as_str()).map_err(table_fault),
        Ok(None) => Err(End::NoTables),
        Err(_) => Err(End::Memory),
    }
}

fn table_fault(fault: FolderFault) -> End {
    match fault {
        FolderFault::Unread(name) => End::TableFile(name),
        FolderFault::Table(fault) => End::Table(fault),
        FolderFault::Image(fault) => End::TableImage(fault),
        FolderFault::Memory => End::Memory,
    }
}
