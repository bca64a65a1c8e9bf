// Numbers of visits, parts of visits, stands, types and rules, as replies give them.
#![tactic(auto, unfolding(serde_json::proofs::OnLiterals::serde_json_on_literals))]

ghost use Rattle.serde_json.specs.Data.{string};
ghost use Rattle.apron_rules.specs.RuleWords.{rule_word};
ghost use Rattle.desk_words.specs.PartObjects.{part_data, stand_data, type_data, whole};

use crate::json_text::{Json, push_null};
use crate::push_object;
use apron_base::{Memory, PartId, StandNo, TypeNo, VisitNo};
use apron_rules::{AirportParts, Rule, rule_word};

impl<At> Json<At> for VisitNo {
    ghost json = { λ _ visit. whole visit.0 };

    fn push(&self, bytes: &mut Vec<u8>, at: &At) -> Result<(), Memory> {
        self.0.push(bytes, at)
    }
}

impl<At> Json<At> for PartId {
    ghost json = { λ _ part. part_data part };

    fn push(&self, bytes: &mut Vec<u8>, at: &At) -> Result<(), Memory> {
        push_object!(bytes, at, { "part": self.part, "visit": self.visit })
    }
}

/// The name of the stand, or null if the airport has none of this number.
impl Json<AirportParts> for StandNo {
    ghost json = { λ airport stand. stand_data airport stand };

    fn push(&self, bytes: &mut Vec<u8>, airport: &AirportParts) -> Result<(), Memory> {
        match airport.stands.as_slice().get(self.0 as usize) {
            Some(row) => row.name.push(bytes, airport),
            None => push_null(bytes),
        }
    }
}

/// The name of the type, or null if the airport has none of this number.
impl Json<AirportParts> for TypeNo {
    ghost json = { λ airport kind. type_data airport kind };

    fn push(&self, bytes: &mut Vec<u8>, airport: &AirportParts) -> Result<(), Memory> {
        match airport.types.as_slice().get(self.0 as usize) {
            Some(row) => row.name.push(bytes, airport),
            None => push_null(bytes),
        }
    }
}

impl<At> Json<At> for Rule {
    ghost json = { λ _ rule. string (rule_word rule) };

    #[tactic(auto, using(crate::proofs::PlainTexts::rule_plain))]
    fn push(&self, bytes: &mut Vec<u8>, at: &At) -> Result<(), Memory> {
        rule_word(*self).push(bytes, at)
    }
}
