// What a record answers.
ghost use Rattle.std.specs.Prelude.{◌≡◌, length};
ghost use Rattle.record.specs.Look.{state};
ghost use Rattle.rules.specs.Laws.{Lawful};
ghost use Rattle.rules.specs.Members.{place_of};
ghost use Rattle.rules.specs.Questions.{member_with, name_of, contribution_of, number_of};
ghost use Rattle.std.specs.Option.{option_map};

use crate::record::Record;
use rules::member::Member;
use rules::name::Name;
use rules::stage::Stage;

impl Record {
    pub fn stage(&self) -> Stage
        ensures { result ≡ (state self.now).stage }
    {
        self.stage
    }

    // In thousandths.
    pub fn multiplier(&self) -> u32
        ensures { result ≡ (state self.now).multiplier }
    {
        self.multiplier
    }

    // How many members are on the roll.
    pub fn member_count(&self) -> usize
        ensures count { result ≡ length (state self.now).members }
        ensures lawful { Lawful (state self.now) }
    {
        self.members.len()
    }

    // The member with this number, if it is there.
    fn member(&self, number: usize) -> Option<&Member>
        ensures { option_map (λ m. m.now) result ≡ member_with (state self.now) number }
    {
        match self.stage {
            Stage::Roll => None,
            _ => self.members.as_slice().get(number),
        }
    }

    // The name of the member with this number.
    pub fn name(&self, number: usize) -> Option<&Name>
        ensures { option_map (λ n. n.now) result ≡ name_of (state self.now) number }
    {
        let member = self.member(number)?;
        Some(&member.name)
    }

    pub fn contribution(&self, number: usize) -> Option<u64>
        ensures { result ≡ contribution_of (state self.now) number }
    {
        Some(self.member(number)?.contribution)
    }

    // The number of the member with this name.
    pub fn number(&self, name: Name) -> Option<usize>
        ensures { result ≡ number_of (state self.now) name }
    {
        match self.stage {
            Stage::Roll => None,
            Stage::Auction | Stage::Settled => self.place_of(name),
        }
    }

    // The place on the roll of the member with this name.
    pub(crate) fn place_of(&self, name: Name) -> Option<usize>
        ensures { result ≡ place_of name (state self.now).members }
    {
        self.members.place_of(&Member {
            name,
            contribution: 0,
        })
    }
}
