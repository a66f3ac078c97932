//! Giving a file its header.

ghost use Rattle.std.specs.Prelude.{◌≡◌, ◌<◌, ◌≤◌, IfSome, OnOk, length, take};
ghost use Rattle.desk_io.specs.Desk.{IsDiskCall, IsSettled};
ghost use Rattle.file_journal.specs.Creating.{IsAtStage, IsBlank, IsMade, IsMaking, LacksFirstByte, header_bytes};
ghost use Rattle.file_journal.specs.Files.{IsFresh, IsTitle};
ghost use Rattle.file_journal.specs.Steps.{Becomes, IfTold};

use crate::header::{Header, after};
use crate::writes::put;
use desk_io::{Desk, DiskFailed};

/// How far a file is from having a header.
#[derive(Clone, Copy, Debug, Drop, PartialEq, Eq)]
pub enum Stage {
    /// It is too short for a header.
    Short,
    /// It begins with 0.
    Blank,
    /// All of the title but its first byte is written.
    Begun,
}

/// The stage of a file that is long enough for a header, and has none yet.
pub fn stage_of(title: &[u8; 12], image: &[u8]) -> Stage
    requires fresh { IsFresh title.now image.now }
    requires long { 45 ≤ length image.now }
    ensures { IsAtStage title.now result image.now }
{
    match image[0] {
        0 => Stage::Blank,
        _ => Stage::Begun,
    }
}

// The first byte.
fn first(bytes: &[u8]) -> &[u8]
    requires { 1 ≤ length bytes.now }
    ensures { result.now ≡ take 1 bytes.now }
{
    &bytes[..1]
}

// Makes a short file begin with 0.
fn blank<D: Desk>(desk: &mut D, header: &Header) -> Result<(), DiskFailed>
    requires settled { IsSettled (D.state desk.old) }
    requires short { IfSome (D.state desk.old).reads (λ file. length file < 45) }
    ensures blank { OnOk result (Becomes (D.state desk.old) (D.state desk.new) (λ file. IsBlank)) }
    ensures call { IsDiskCall (D.state desk.old) (D.state desk.new) result
        (IfTold (D.state desk.old) (λ file. IsFresh header.now.title)) }
{
    let _ = header;
    put(desk, 0, &[0])
}

// Writes a header after its first byte, which is 0.
fn fill_blank<D: Desk>(desk: &mut D, header: &Header, bytes: &[u8]) -> Result<(), DiskFailed>
    requires settled { IsSettled (D.state desk.old) }
    requires title { IsTitle header.now.title }
    requires bytes { bytes.now ≡ header_bytes header.now }
    requires blank { IfSome (D.state desk.old).reads IsBlank }
    ensures ready { OnOk result (Becomes (D.state desk.old) (D.state desk.new) (λ file. LacksFirstByte header.now)) }
    ensures call { IsDiskCall (D.state desk.old) (D.state desk.new) result
        (IfTold (D.state desk.old) (λ file. IsFresh header.now.title)) }
{
    let _ = header.parts_len();
    put(desk, 1, after(bytes, 1))
}

// Writes the rest of a header after its title, where all of the title but its first byte is written.
fn fill_begun<D: Desk>(desk: &mut D, header: &Header, bytes: &[u8]) -> Result<(), DiskFailed>
    requires settled { IsSettled (D.state desk.old) }
    requires bytes { bytes.now ≡ header_bytes header.now }
    requires begun { IfSome (D.state desk.old).reads (IsAtStage header.now.title Stage.Begun) }
    ensures ready { OnOk result (Becomes (D.state desk.old) (D.state desk.new) (λ file. LacksFirstByte header.now)) }
    ensures call { IsDiskCall (D.state desk.old) (D.state desk.new) result
        (IfTold (D.state desk.old) (λ file. IsFresh header.now.title)) }
{
    let _ = header.parts_len();
    put(desk, 12, after(bytes, 12))
}

// Writes all of a header but its first byte.
fn fill<D: Desk>(
    desk: &mut D,
    stage: Stage,
    header: &Header,
    bytes: &[u8],
) -> Result<(), DiskFailed>
    requires settled { IsSettled (D.state desk.old) }
    requires title { IsTitle header.now.title }
    requires bytes { bytes.now ≡ header_bytes header.now }
    requires stage { IfSome (D.state desk.old).reads (IsAtStage header.now.title stage) }
    ensures ready { OnOk result (Becomes (D.state desk.old) (D.state desk.new) (λ file. LacksFirstByte header.now)) }
    ensures call { IsDiskCall (D.state desk.old) (D.state desk.new) result
        (IfTold (D.state desk.old) (λ file. IsFresh header.now.title)) }
{
    match stage {
        Stage::Short => {
            blank(desk, header)?;
            fill_blank(desk, header, bytes)
        }
        Stage::Blank => fill_blank(desk, header, bytes),
        Stage::Begun => fill_begun(desk, header, bytes),
    }
}

// Writes the first byte of a header, which makes it whole.
fn finish<D: Desk>(desk: &mut D, header: &Header, bytes: &[u8]) -> Result<(), DiskFailed>
    requires settled { IsSettled (D.state desk.old) }
    requires bytes { bytes.now ≡ header_bytes header.now }
    requires ready { IfSome (D.state desk.old).reads (LacksFirstByte header.now) }
    ensures made { OnOk result (Becomes (D.state desk.old) (D.state desk.new) (λ file. IsMade header.now)) }
    ensures call { IsDiskCall (D.state desk.old) (D.state desk.new) result
        (IfTold (D.state desk.old) (λ file. IsMaking header.now)) }
{
    let _ = header.parts_len();
    put(desk, 0, first(bytes))
}

/// Gives a file a header, and no records. It has no records at any moment meanwhile either.
pub fn create<D: Desk>(
    desk: &mut D,
    stage: Stage,
    header: &Header,
    bytes: &[u8],
) -> Result<(), DiskFailed>
    requires settled { IsSettled (D.state desk.old) }
    requires title { IsTitle header.now.title }
    requires bytes { bytes.now ≡ header_bytes header.now }
    requires stage { IfSome (D.state desk.old).reads (IsAtStage header.now.title stage) }
    ensures made { OnOk result (Becomes (D.state desk.old) (D.state desk.new) (λ file. IsMade header.now)) }
    ensures call { IsDiskCall (D.state desk.old) (D.state desk.new) result
        (IfTold (D.state desk.old) (λ file. IsMaking header.now)) }
{
    fill(desk, stage, header, bytes)?;
    finish(desk, header, bytes)
}
