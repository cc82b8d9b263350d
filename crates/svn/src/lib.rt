// Satellites of the Galileo system, and how they are written (STORE 4).
#![tactic(auto)]

ghost use Rattle.std.specs.Prelude.{◌≡◌};
ghost use Rattle.svn.specs.Answer.{satellite_answer};
ghost use Rattle.paper.specs.Satellite.{is_satellite, satellite_of, letters_of};

use refusals::Refusal;

pub const MOST_SATELLITES: u8 = 36;

// A satellite's number. The public field can hold any, so whoever is given one asks `is_satellite`.
#[derive(Clone, Copy, PartialEq, Eq)]
pub struct Svn(pub u8);

impl TryFrom<u8> for Svn {
    type Error = Refusal;

    ghost try_from_gives = { λ number r. satellite_answer r ≡ satellite_of number };

    // The satellite of a number: 4 where it is not 1 to 36.
    #[tactic(auto, unfolding(paper::specs::Satellite::satellite_of))]
    fn try_from(number: u8) -> Result<Svn, Refusal> {
        let svn = Svn(number);
        if svn.is_satellite() {
            return Ok(svn);
        }
        Err(Refusal::NoSatellite)
    }
}

impl Svn {
    // Whether the number is 1 to 36.
    pub fn is_satellite(self) -> bool
        ensures { result ≡ is_satellite self.0 }
    {
        let number = self.0;
        if number < 1 {
            return false;
        }
        number <= MOST_SATELLITES
    }

    // E01 to E36. A number that is no satellite's, 0 or 37 to 255, is written by the same rule: E and its last two digits.
    #[tactic(auto, unfolding(paper::specs::Satellite::letters_of))]
    pub fn letters(self) -> [u8; 3]
        ensures { result ≡ letters_of self.0 }
    {
        let number = self.0;
        let mut letters = *b"E00";
        letters[1] += number / 10 % 10;
        letters[2] += number % 10;
        letters
    }
}
