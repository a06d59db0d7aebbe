// What stands next in an image.
ghost use Rattle.std.specs.Prelude.{◌≡◌, Result};
ghost use Rattle.std.specs.Int.{w16, w32};
ghost use Rattle.boot_image.specs.NextItem.{Reads, seen, sized_at, directory_at, file_at, next_at};

use byte_cursor::{Cursor, CursorFault};

/// What stands next in an image.
#[derive(Clone, Copy, Debug)]
pub enum Item<'a> {
    /// The byte 00, which ends the entries.
    Last,
    /// The byte 01 and the path of a directory.
    Directory(&'a [u8]),
    /// The byte 02, and the path and the bytes of a file.
    File(&'a [u8], &'a [u8]),
    /// A byte that begins no entry.
    Other,
}

// a path behind its length
#[tactic(auto, unfolding(crate::specs::NextItem::sized_at))]
fn path<'a>(cursor: &mut Cursor<'a>) -> Result<&'a [u8], CursorFault>
    ensures { Reads (λ path. path.now) result cursor.new (sized_at w16 cursor.old) }
{
    let len = cursor.le_u16()?;
    cursor.take(len as usize)
}

// a file's bytes behind their length
#[tactic(auto, unfolding(crate::specs::NextItem::sized_at))]
fn content<'a>(cursor: &mut Cursor<'a>) -> Result<&'a [u8], CursorFault>
    ensures { Reads (λ bytes. bytes.now) result cursor.new (sized_at w32 cursor.old) }
{
    let len = cursor.le_u32()?;
    cursor.take(len as usize)
}

#[tactic(auto, unfolding(crate::specs::NextItem::directory_at))]
fn directory<'a>(cursor: &mut Cursor<'a>) -> Result<Item<'a>, CursorFault>
    ensures { Reads seen result cursor.new (directory_at cursor.old) }
{
    Ok(Item::Directory(path(cursor)?))
}

#[tactic(auto, unfolding(crate::specs::NextItem::file_at))]
fn file<'a>(cursor: &mut Cursor<'a>) -> Result<Item<'a>, CursorFault>
    ensures { Reads seen result cursor.new (file_at cursor.old) }
{
    let path = path(cursor)?;
    let bytes = content(cursor)?;
    Ok(Item::File(path, bytes))
}

/// What stands at the front of the bytes that are left. A fault comes exactly where they end within it.
#[tactic(auto, unfolding(crate::specs::NextItem::next_at))]
pub fn next<'a>(cursor: &mut Cursor<'a>) -> Result<Item<'a>, CursorFault>
    ensures { Reads seen result cursor.new (next_at cursor.old) }
{
    match cursor.byte()? {
        0 => Ok(Item::Last),
        1 => directory(cursor),
        2 => file(cursor),
        _ => Ok(Item::Other),
    }
}
