//! Modules that are malformed, or use what is not supported (Binary Format, Modules).

use crate::format::{read_item, read_name};
use crate::malformations::{Malformation, Misreading, SectionFault};
use crate::reader::Reader;
use crate::sections::{FUNCTION, GLOBAL, MEMORY, TABLE, imported_items};
use std::alloc::{AllocError, Global};
use thiserror::Error;

const MAGIC: [u8; 4] = [0x00, 0x61, 0x73, 0x6D];

const VERSION: [u8; 4] = [0x01, 0x00, 0x00, 0x00];

/// Where in a module a fault is.
#[derive(Clone, Copy, Debug, Error)]
enum Place {
    #[error("the module")]
    Module,
    #[error("a custom section")]
    Custom,
    #[error("section {0}")]
    Section(u8),
    /// In an item of the section of this id.
    #[error("item {1} of section {0}")]
    Item(u8, u32),
    #[error("{0} {1}")]
    Named(&'static str, u32),
}

// A fault, and where it is.
#[derive(Clone, Copy)]
struct Located {
    place: Place,
    misreading: Misreading,
}

// Returns an answer whose fault is at a place.
fn at<T>(place: Place, answer: Result<T, Misreading>) -> Result<T, Located> {
    match answer {
        Ok(value) => Ok(value),
        Err(misreading) => Err(Located { place, misreading }),
    }
}

// Returns a fault of the sections, which is one of the whole module.
fn section_fault(offset: usize, fault: SectionFault) -> Located {
    let cause = Malformation::Sections(fault);
    Located {
        place: Place::Module,
        misreading: Misreading { offset, cause },
    }
}

// What the sections so far say.
#[derive(Clone, Copy)]
struct Progress {
    // the place of the last section in the order of sections
    rank: u8,
    // the numbers of functions, of bodies and of data segments
    functions: u32,
    has_code: bool,
    data_count: Option<u32>,
    data_segments: u32,
}

// Returns the place of a section in the order of sections. The data count comes before the code.
fn rank_of(id: u8) -> u8 {
    match id {
        12 => 10,
        10 => 11,
        11 => 12,
        _ => id,
    }
}

// Returns what is wrong with the beginning of a section, if something is.
fn beginning_fault(progress: Progress, id: u8) -> Option<SectionFault> {
    if id > 12 {
        return Some(SectionFault::Unknown(id));
    }
    if rank_of(id) <= progress.rank {
        return Some(SectionFault::Misplaced(id));
    }
    if id == 11 && !progress.has_code && progress.functions > 0 {
        return Some(SectionFault::NoCode);
    }
    None
}

// Reads the number of the items of the section of an id. There are as many bodies as functions.
fn read_count(content: &mut Reader<'_>, id: u8, functions: u32) -> Result<u32, Located> {
    let offset = content.offset();
    let count = at(Place::Section(id), content.number())?;
    if id == 10 && count != functions {
        return Err(section_fault(offset, SectionFault::Bodies(count, functions)));
    }
    Ok(count)
}

// Reads that many items of the section of an id.
fn read_each(content: &mut Reader<'_>, id: u8, count: u32) -> Result<(), Located> {
    for index in 0..count {
        at(Place::Item(id, index), read_item(content, id))?;
    }
    Ok(())
}

// Reads the items of the section of an id, and returns their number.
fn read_items(content: &mut Reader<'_>, id: u8, functions: u32) -> Result<u32, Located> {
    let count = read_count(content, id, functions)?;
    read_each(content, id, count)?;
    at(Place::Section(id), content.finish())?;
    Ok(count)
}

// Reads the number in a section.
fn read_number(content: &mut Reader<'_>, id: u8) -> Result<u32, Located> {
    let section = Place::Section(id);
    let number = at(section, content.number())?;
    at(section, content.finish())?;
    Ok(number)
}

// Reads the content of the section of an id, and returns what is known then.
fn read_content(content: &mut Reader<'_>, id: u8, progress: Progress) -> Result<Progress, Located> {
    let count = match id {
        8 | 12 => read_number(content, id)?,
        _ => read_items(content, id, progress.functions)?,
    };
    let next = Progress {
        rank: rank_of(id),
        ..progress
    };
    match id {
        3 => Ok(Progress {
            functions: count,
            ..next
        }),
        10 => Ok(Progress {
            has_code: true,
            ..next
        }),
        11 => Ok(Progress {
            data_segments: count,
            ..next
        }),
        12 => Ok(Progress {
            data_count: Some(count),
            ..next
        }),
        _ => Ok(next),
    }
}

// Reads a custom section after its id.
fn read_custom(reader: &mut Reader<'_>) -> Result<(), Located> {
    let mut content = at(Place::Custom, reader.part("file"))?;
    at(Place::Custom, read_name(&mut content))
}

// Reads the section of an id after the id, which is at an offset.
fn read_known(
    reader: &mut Reader<'_>,
    offset: usize,
    id: u8,
    progress: Progress,
) -> Result<Progress, Located> {
    if let Some(found) = beginning_fault(progress, id) {
        return Err(section_fault(offset, found));
    }
    let mut content = at(Place::Section(id), reader.part("file"))?;
    read_content(&mut content, id, progress)
}

// Reads a section, and returns what is known then.
fn read_section(reader: &mut Reader<'_>, progress: Progress) -> Result<Progress, Located> {
    let offset = reader.offset();
    match at(Place::Module, reader.byte())? {
        0 => {
            read_custom(reader)?;
            Ok(progress)
        }
        id => read_known(reader, offset, id, progress),
    }
}

// Reads the bytes that a module begins with.
fn read_bytes(
    reader: &mut Reader<'_>,
    wanted: &[u8],
    otherwise: SectionFault,
) -> Result<(), Located> {
    for byte in wanted {
        let offset = reader.offset();
        match reader.byte() {
            Ok(found) if found == *byte => {}
            _ => return Err(section_fault(offset, otherwise)),
        }
    }
    Ok(())
}

// Reads the magic number and the version.
fn read_header(reader: &mut Reader<'_>) -> Result<(), Located> {
    read_bytes(reader, &MAGIC, SectionFault::Magic)?;
    read_bytes(reader, &VERSION, SectionFault::Version)
}

// Returns what is wrong with the sections of a module together, if something is.
fn ending_fault(progress: Progress) -> Option<SectionFault> {
    if !progress.has_code && progress.functions > 0 {
        return Some(SectionFault::NoCode);
    }
    match progress.data_count {
        Some(count) if count == progress.data_segments => None,
        Some(count) => Some(SectionFault::DataCount(count, progress.data_segments)),
        None => Some(SectionFault::NoDataCount),
    }
}

// Reads a module, and returns its first fault, if it has one. A module without a data count has the fault that it has none.
fn first_fault(bytes: &[u8], offset: usize) -> Result<(), Located> {
    let mut reader = Reader::new(bytes, offset);
    read_header(&mut reader)?;
    let mut progress = Progress {
        rank: 0,
        functions: 0,
        has_code: false,
        data_count: None,
        data_segments: 0,
    };
    for _ in 0..bytes.len() {
        if reader.is_empty() {
            break;
        }
        progress = read_section(&mut reader, progress)?;
    }
    match ending_fault(progress) {
        Some(found) => Err(section_fault(bytes.len(), found)),
        None => Ok(()),
    }
}

// Returns a place by the name of its item, whose index counts imported ones.
fn named(bytes: &[u8], place: Place) -> Place {
    let Place::Item(id, own) = place else {
        return place;
    };
    let (name, kind) = match id {
        1 => ("type", None),
        2 => ("import", None),
        3 | 10 => ("function", Some(FUNCTION)),
        4 => ("table", Some(TABLE)),
        5 => ("memory", Some(MEMORY)),
        6 => ("global", Some(GLOBAL)),
        7 => ("export", None),
        9 => ("element segment", None),
        _ => ("data segment", None),
    };
    let imported = match kind {
        Some(kind) => imported_items(bytes, kind).unwrap_or(0),
        None => 0,
    };
    Place::Named(name, imported.saturating_add(own))
}

// Returns the text of a fault, without its offset.
fn text_of(alloc: Global, place: Place, cause: Malformation) -> Result<String, AllocError> {
    match (place, cause) {
        (Place::Module, _) => format!(in alloc; "{cause}"),
        (_, Malformation::Left(1)) => format!(in alloc; "{place} ends one byte too early"),
        (_, Malformation::PastEnd(_) | Malformation::Left(_)) => format!(in alloc;
            "{place} {cause}"
        ),
        (_, Malformation::NotUtf8) => format!(in alloc; "{cause} in the name of {place}"),
        _ => format!(in alloc; "{cause} in {place}"),
    }
}

// Returns the text of the fault at an offset, if there is one, and if it is of this kind.
fn explain_fault(
    alloc: Global,
    bytes: &[u8],
    offset: usize,
    is_unsupported: bool,
) -> Result<Option<String>, AllocError> {
    let Err(Located { place, misreading }) = first_fault(bytes, offset) else {
        return Ok(None);
    };
    if misreading.offset != offset || misreading.cause.is_unsupported() != is_unsupported {
        return Ok(None);
    }
    let text = text_of(alloc, named(bytes, place), misreading.cause)?;
    Ok(Some(format!(in alloc; "{text}, at offset 0x{offset:x}")?))
}

/// Returns why bytes encode no module: what was read and what was found, and where. Returns none if reading does not fail at this
/// offset.
///
/// # Errors
///
/// Fails if an allocation fails.
pub fn explain_malformed(
    alloc: Global,
    bytes: &[u8],
    offset: usize,
) -> Result<Option<String>, AllocError> {
    explain_fault(alloc, bytes, offset, false)
}

/// Returns which feature at this offset is not supported, by its name in the standard, and where it is. Returns none if there is
/// none.
///
/// # Errors
///
/// Fails if an allocation fails.
pub fn explain_unsupported(
    alloc: Global,
    bytes: &[u8],
    offset: usize,
) -> Result<Option<String>, AllocError> {
    explain_fault(alloc, bytes, offset, true)
}
