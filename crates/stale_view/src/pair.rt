//! A publisher and its first viewer.

ghost use Rattle.std.specs.Prelude.{◌≡◌, ◌<◌, [], IfOk};
ghost use Rattle.stale_view.specs.Published.{nothing_published};

use crate::history::Opened;
use crate::names::PairName;
use crate::publisher::Publisher;
use crate::readers::Readers;
use crate::rule::SideWriter;
use crate::side::Side;
use crate::viewer::Viewer;
use cat_model::Memory;
use left_right::writer::Writer;
use std::alloc::Global;
use std::sync::Wait;

/// A publisher that shows nothing yet, and its first viewer. So many viewers of the pair can read at once.
pub fn stale_pair<J: PairName, R: Wait + Drop>(
    alloc: Global,
    rt: R,
    opened: Opened,
    places: u32,
) -> Result<(Publisher<J, R>, Viewer<J>), Memory>
    requires named { opened.front.book ≡ J.book }
    requires some { 0 < places }
    ensures { IfOk result (λ p. (p.0 ≡ nothing_published) × (p.1 ≡ [])) }
{
    let Opened { head, front } = opened;
    let first = Side::new(alloc, &front)?;
    let second = Side::new(alloc, &front)?;
    let writer: SideWriter<J> = Writer::new(alloc, first, second, places as usize)?;
    let Ok(readers) = Readers::new(alloc, &writer, &front, places) else {
        drop(writer.take(&rt));
        return Err(Memory);
    };
    let viewer = Viewer {
        readers,
        read: front.again(),
    };
    let publisher = Publisher {
        writer,
        taken: 0,
        front,
        head,
        rt,
    };
    Ok((publisher, viewer))
}
