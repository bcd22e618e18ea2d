// A new board.
ghost use Rattle.std.specs.Prelude.{◌≡◌, ◌≤◌, [], Some, All, length, IfOk};
ghost use Rattle.version_board.specs.Reads.{unread};

use crate::front::Front;
use crate::pen::Pen;
use crate::reader::BoardReader;
use crate::writer::BoardWriter;
use pond_base::OutOfMemory;
use std::alloc::Global;
use std::sync::Wait;

/// A new board with no entries, its writer and so many readers.
pub fn open_board<R: Wait>(
    rt: &R,
    alloc: Global,
    readers: u32,
) -> Result<(BoardWriter, Vec<BoardReader>), OutOfMemory>
    requires { 1 ≤ readers }
    ensures writer { IfOk result (λ ends. ends.0 ≡ record { board = ends.0.board; published = []; pending = [] }) }
    ensures count { IfOk result (λ ends. length ends.1.items ≡ readers) }
    ensures readers { IfOk result (λ ends. All (λ reader. reader ≡ unread ends.0.board) ends.1.items) }
{
    let (front, counter) = Front::open();
    let mut pen = Pen::open(rt, alloc, &front, readers)?;
    match seats(alloc, &mut pen, &front, readers) {
        Ok(seats) => Ok((BoardWriter::new(pen, counter, front), seats)),
        Err(fault) => {
            pen.close(rt);
            Err(fault)
        }
    }
}

// So many readers of a new board.
fn seats(
    alloc: Global,
    pen: &mut Pen,
    front: &Front,
    readers: u32,
) -> Result<Vec<BoardReader>, OutOfMemory>
    requires sight { pen.old.sight ≡ Some front.now }
    requires empty { front.now.list ≡ [] }
    ensures count { IfOk result (λ seats. length seats.items ≡ readers) }
    ensures seats { IfOk result (λ seats. All (λ reader. reader ≡ unread front.now.board) seats.items) }
    ensures kept { pen.new ≡ pen.old }
{
    let mut seats = Vec::new(alloc);
    while seats.len() < readers as usize {
        let door = pen.reader()?;
        seats.push(BoardReader::new(door, front))?;
    }
    Ok(seats)
}
