ghost use Rattle.std.specs.Prelude.{◌≡◌, List, [], ◌∷◌, ◌++◌, map, Option, Some};
ghost use Rattle.std.specs.Option.{option_map};
ghost use Rattle.cat_model.specs.declared.request.Draw.{Draw as SpecDraw};
ghost use Rattle.outside.specs.Causes.{counted};

use cat_model::Draw;
use http_server::Log;

/// What gives the random words of requests.
pub trait Words {
    /// The draws that it gave, where it tells them.
    ghost draws: { Self → Option (List SpecDraw) };

    fn draw(&mut self) -> Draw
        ensures { draws self.new ≡ option_map (λ before. before ++ result ∷ []) (draws self.old) };
}

/// Words in memory: 1 and 1, then 2 and 2, and so on, and the last number again after 2^64 - 1 draws.
#[derive(Drop)]
pub struct CountWords {
    drawn: u64,
    given: Log<Draw, ()>,
}

impl CountWords {
    pub fn new() -> CountWords
        ensures { (result.drawn ≡ 0) × (⟦<CountWords as Words>⟧.draws result ≡ Some []) }
    {
        CountWords {
            drawn: 0,
            given: Log::new(),
        }
    }
}

impl Words for CountWords {
    ghost use Rattle.std.specs.Prelude.{Some, map};

    ghost draws = { λ w. Some (map (λ p. p.0) w.given.items) };

    fn draw(&mut self) -> Draw
        ensures told { Some (map (λ p. p.0) self.new.given.items) ≡ Some (map (λ p. p.0) self.old.given.items ++ result ∷ []) }
        ensures next { (self.new.drawn ≡ counted self.old.drawn) × (result ≡ record { hi = counted self.old.drawn; lo = counted self.old.drawn }) }
    {
        self.drawn = self.drawn.saturating_add(1);
        let draw = Draw {
            hi: self.drawn,
            lo: self.drawn,
        };
        self.given = self.given.and(&draw, &());
        draw
    }
}
