//! The command `map`: a picture of the region files of a folder.
ghost use Rattle.std.specs.Prelude.{◌≡◌, IfErr, IfOk, OnOk, option_map};
ghost use Rattle.av_sink.specs.Account.{IsFresh};
ghost use Rattle.av_png.specs.Png.{png_of};
ghost use Rattle.av_map.specs.Views.{colours_of};
ghost use Rattle.av_queries.specs.MapCommand.{AreColoursBy, HasMapped, IsMapBy, IsNotSaved, IsSaved, view_by};

use av_commands::tables::read_height;
use av_commands::texts::read_text;
use av_folders::failing::failure_of_file;
use av_folders::progress::{end_steps, note_step};
use av_folders::{LockFiles, read_folder};
use av_map::{Colours, Map, Refusal, View, draw};
use av_png::{Picture, write_png};
use av_reports::failure::Failure;
use av_reports::manner::Manner;
use av_reports::names::split_path;
use av_reports::output::{FAULT, report_fault, write_left_out};
use av_reports::reasons::report_failure;
use av_sink::OutputFolder;
use av_types::Fault;
use std::alloc::{AllocError, Global};
use std::io::{Input, Write};
use std::rt::Files;

/// What a picture is asked for.
#[derive(Clone, Copy, Drop)]
pub struct MapRequest<'a> {
    /// The folder whose region files are read.
    pub input: &'a str,
    /// The file of the picture.
    pub picture: &'a str,
    /// The file of the block table.
    pub table: Option<&'a str>,
    /// The file of the colours.
    pub colours: Option<&'a str>,
    /// Whether the block light is drawn in place of the colours.
    pub light: bool,
}

/// What is drawn.
fn view_by(light: bool) -> View
    ensures { result ≡ view_by light }
{
    if light { View::Light } else { View::Blocks }
}

/// The colours of a file, where one is named.
fn read_colours<R: Files + Input + AllocGlobal>(
    rt: &R,
    name: Option<&str>,
) -> Result<Colours, Failure>
    ensures { IfOk result (λ c. AreColoursBy (option_map (λ t. t.now) name.entry) (colours_of c)) }
{
    let Some(name) = name else {
        return Ok(Colours::none(rt.alloc()));
    };
    let text = read_text(rt, name)?;
    Ok(Colours::read(rt.alloc(), text.as_slice())?)
}

/// Why there is no picture.
#[derive(Debug, Drop)]
enum NoPicture {
    Unread(Failure),
    Undrawn(Refusal),
}

impl From<Failure> for NoPicture {
    fn from(failure: Failure) -> NoPicture {
        NoPicture::Unread(failure)
    }
}

impl From<Refusal> for NoPicture {
    fn from(refusal: Refusal) -> NoPicture {
        NoPicture::Undrawn(refusal)
    }
}

/// Reads what is asked for, and draws it.
fn draw_map<R: LockFiles + Input + Eprint + AllocGlobal + Clone + Drop, E: Write>(
    rt: &R,
    request: MapRequest<'_>,
    manner: Manner,
    err: &mut E,
) -> Result<Map, NoPicture>
    ensures { IfOk result (IsMapBy (option_map (λ t. t.now) request.entry.table)
        (option_map (λ t. t.now) request.entry.colours) request.entry.light) }
{
    let height = read_height(rt, request.table)?;
    let colours = read_colours(rt, request.colours)?;
    let files = read_folder(rt, request.input, manner, err)?;
    note_step(err, manner.progress, "drawing");
    Ok(draw(rt.alloc(), files, height, &colours, view_by(request.light))?)
}

/// The bytes of a picture's file.
fn picture_bytes(alloc: Global, picture: &Picture) -> Result<Vec<u8>, AllocError>
    ensures { IfOk result (λ bytes. bytes.items ≡ png_of picture.now) }
{
    let mut bytes = Vec::new(alloc);
    match write_png(alloc, &mut bytes, picture) {
        Ok(()) => Ok(bytes),
        Err(_) => Err(AllocError),
    }
}

/// Hands a file to the folder of its path, whole or not at all.
///
/// Refuses with `Device` and the path where it is not taken.
fn save<S: OutputFolder>(alloc: Global, path: &str, bytes: &[u8], sink: &mut S) -> Result<(), Fault>
    requires fresh { IsFresh (S.account sink.old) }
    ensures ok { OnOk result (IsSaved path.now bytes.now (S.account sink.old)
        (S.account sink.new)) }
    ensures err { IfErr result (IsNotSaved path.now (S.account sink.old) (S.account sink.new)) }
{
    let (folder, name) = split_path(alloc, path)?;
    sink.open(folder.as_str(), true)?;
    match sink.write_file(name, bytes) {
        Ok(()) => Ok(()),
        Err(_) => Err(Fault::Device(String::from_str(alloc, path)?)),
    }
}

/// Hands a picture to the folder of its path.
fn save_picture<S: OutputFolder>(
    alloc: Global,
    path: &str,
    picture: &Picture,
    sink: &mut S,
) -> Result<(), Fault>
    requires fresh { IsFresh (S.account sink.old) }
    ensures ok { OnOk result (IsSaved path.now (png_of picture.now) (S.account sink.old)
        (S.account sink.new)) }
    ensures err { IfErr result (IsNotSaved path.now (S.account sink.old) (S.account sink.new)) }
{
    let bytes = picture_bytes(alloc, picture)?;
    save(alloc, path, bytes.as_slice(), sink)
}

/// Says how many chunks, and files cut short, are not shown, where some are not.
fn note_left_out<E: Write>(err: &mut E, map: &Map) {
    let left_out = (map.unread_chunks as u64).saturating_add(map.short_files as u64);
    if left_out > 0 {
        let _ = write_left_out(err, left_out);
    }
}

/// Writes why there is no map, as well as that can be written, and answers the status.
fn report_no_picture<E: Write>(alloc: Global, err: &mut E, none: &NoPicture, manner: Manner) -> u8
    ensures { result ≡ FAULT }
{
    end_steps(err, manner.progress);
    match none {
        NoPicture::Unread(failure) => report_failure(alloc, err, failure, manner.explains),
        NoPicture::Undrawn(Refusal::Fault(fault)) => report_fault(err, fault),
        NoPicture::Undrawn(refusal) => {
            let _ = writeln!(err, "{refusal}");
            FAULT
        }
    }
}

/// Says why a picture was not saved, as well as that can be written, and answers the status.
fn report_unsaved<S: OutputFolder, E: Write>(
    alloc: Global,
    fault: Fault,
    sink: &mut S,
    manner: Manner,
    err: &mut E,
) -> u8
    ensures status { result ≡ FAULT }
    ensures same { S.account sink.new ≡ S.account sink.old }
{
    let failure = match sink.last_failed() {
        Some(failed) => failure_of_file(fault, failed),
        None => Failure::from(fault),
    };
    report_failure(alloc, err, &failure, manner.explains)
}

/// Runs `map`. The answer is the program's status: 0, even where chunks with a fault are not shown; 1 where there is no picture, or
/// it could not be written.
pub fn run_map<
    R: LockFiles + Input + Eprint + AllocGlobal + Clone + Drop,
    S: OutputFolder,
    E: Write,
>(rt: &R, request: MapRequest<'_>, sink: &mut S, manner: Manner, err: &mut E) -> u8
    requires fresh { IsFresh (S.account sink.old) }
    ensures { HasMapped request.entry.picture.now (option_map (λ t. t.now) request.entry.table) (option_map (λ t. t.now) request.entry.colours) request.entry.light
        (S.account sink.old) (S.account sink.new) result }
{
    let map = match draw_map(rt, request, manner, err) {
        Ok(map) => map,
        Err(none) => return report_no_picture(rt.alloc(), err, &none, manner),
    };
    end_steps(err, manner.progress);
    match save_picture(rt.alloc(), request.picture, &map.picture, sink) {
        Ok(()) => {
            note_left_out(err, &map);
            0
        }
        Err(fault) => report_unsaved(rt.alloc(), fault, sink, manner, err),
    }
}
