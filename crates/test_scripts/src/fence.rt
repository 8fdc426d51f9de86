//! Rows that are run behind a fence.
use crate::outside::RowWorld;
use crate::row::Row;
use std::alloc::{AllocError, Global};
use world_os::{FencedWorld, FileFence, Names};

/// The operands of a row, as words; one that is not UTF-8 is empty.
pub(crate) fn operands_of(alloc: Global, row: &Row) -> Result<Vec<&str>, AllocError> {
    let mut words = Vec::new(alloc);
    for operand in &row.job.operands {
        words.push(str::from_utf8(operand.as_slice()).unwrap_or(""))?;
    }
    Ok(words)
}

/// The world of a row, behind the fence of its options.
pub(crate) fn world_of<'a>(
    alloc: Global,
    row: &Row,
    operands: &'a [&'a str],
) -> Result<FencedWorld<RowWorld, FileFence<'a>>, AllocError> {
    let fence = FileFence {
        no_files: row.fences.no_files,
        read_only: row.fences.read_only,
        operands: if row.fences.only_operands {
            Some(Names::new(alloc, operands)?)
        } else {
            None
        },
        may_read: Names::none(alloc),
        may_write: Names::none(alloc),
        streams: false,
    };
    Ok(FencedWorld::new(row.outside.world(alloc)?, fence))
}
