ghost use Rattle.std.specs.Prelude.{◌≡◌, false, true};

use serve_outside::{Job, Link};

/// Reads once from a connection, writes what came back to it, and shuts it.
#[derive(Drop)]
pub struct Echo<Li> {
    pub link: Li,
}

// Writes the piece, as far as it is taken at once.
fn say<Li: Link>(link: &mut Li, piece: &[u8])
    requires still_open { (Li.state link.old).shut ≡ false }
{
    let _ = link.write(piece);
}

impl<Li: Link> Job for Echo<Li> {
    ghost use Rattle.std.specs.Prelude.{◌≡◌, false, true};

    type Done = Li;

    ghost ready = { λ job. (Li.state job.link).shut ≡ false };

    ghost keeps = { λ job link. (Li.state link).shut ≡ true };

    fn run(self) -> Li {
        let Echo { mut link } = self;
        let mut room = [0u8; 16];
        if let Ok(count) = link.read(&mut room) {
            say(&mut link, &room[..count]);
        }
        link.shut();
        link
    }
}
