// The number and the words of an answer, as document 01 has them for each of its cases.
// `paper`'s `specs/Answer.antt`, `specs/Lookup.antt` and `specs/Convert.antt` give them as definitions.
ghost use Rattle.std.specs.Prelude.{◌≡◌};
ghost use Rattle.paper.specs.Answer.{refusal_number, refusal_place, number};
ghost use Rattle.paper.specs.Convert.{converted_number};
ghost use Rattle.capi.specs.Promise.{converted_words, setting_of, eight, words};

use paper::{Answer, Converted, Refused, Setting};

/// The setting of a number: 0 for short frames, any other for full ones.
pub fn setting_of(full: u32) -> Setting
    ensures { result ≡ setting_of full }
{
    match full {
        0 => Setting::Short,
        _ => Setting::Full,
    }
}

/// What comes of a refusal: its number; its place is the first word, its line the third, and the others are 0.
fn tell_refusal(refused: Refused, answer: &mut [u64; 8]) -> u32
    ensures { (result ≡ refusal_number refused.refusal) × (answer.new ≡ eight (refusal_place refused.refusal) refused.line 0 0 0) }
{
    *answer = [refused.refusal.place(), 0, refused.line, 0, 0, 0, 0, 0];
    refused.refusal.number()
}

/// The number of what measure or writer answers; its words go into `answer`.
pub fn tell(told: Answer, answer: &mut [u64; 8]) -> u32
    ensures { (result ≡ number told) × (answer.new ≡ words told) }
{
    match told {
        Ok(s) => {
            *answer = [0, 0, 0, s.frames, s.diags, 0, s.count, 0];
            0
        }
        Err(refused) => tell_refusal(refused, answer),
    }
}

/// The number of what the converter answers; its words go into `answer`.
pub fn tell_converted(converted: Converted, answer: &mut [u64; 2]) -> u32
    ensures { (result ≡ converted_number converted) × (answer.new ≡ converted_words converted) }
{
    match converted {
        Ok(used) => {
            *answer = [0, used];
            0
        }
        Err(why) => {
            *answer = [why.place(), 0];
            why.number()
        }
    }
}
