// The calls of stage Roll.
ghost use Rattle.std.specs.Prelude.{◌≡◌};
ghost use Rattle.record.specs.Look.{state};
ghost use Rattle.rules.specs.Calls.{Did, answer, refusal};
ghost use Rattle.rules.specs.Calls.Call.{multiplier, enrol as enrols, close_roll};
ghost use Rattle.rules.specs.Laws.{Lawful};

use crate::record::Record;
use rules::member::Member;
use rules::name::Name;
use rules::refusal::Refusal;
use rules::stage::Stage;

impl Record {
    // Whether a multiplier is taken, and why not if it is not.
    fn takes_multiplier(&self, thousandths: u32) -> Result<(), Refusal>
        ensures { result ≡ answer (refusal (state self.now) (multiplier thousandths)) tt }
    {
        if self.stage != Stage::Roll {
            return Err(Refusal::OtherStage);
        }
        if thousandths < 1000 || thousandths > 4000 {
            return Err(Refusal::OutsideLimits);
        }
        Ok(())
    }

    // Sets the multiplier, 1,000 to 4,000 thousandths.
    pub fn set_multiplier(&mut self, thousandths: u32) -> Result<(), Refusal>
        ensures did { Did (state self.old) (multiplier thousandths) tt (state self.new) result }
        ensures lawful { Lawful (state self.new) }
    {
        self.takes_multiplier(thousandths)?;
        self.multiplier = thousandths;
        Ok(())
    }

    // Whether a member is taken, and why not if it is not.
    fn takes_member(&self, member: Member) -> Result<(), Refusal>
        ensures { result ≡ answer (refusal (state self.now) (enrols member)) tt }
    {
        if self.stage != Stage::Roll {
            return Err(Refusal::OtherStage);
        }
        if member.contribution < 1 || member.contribution > 25_000_000 {
            return Err(Refusal::OutsideLimits);
        }
        if !member.name.is_plain() {
            return Err(Refusal::NameByte);
        }
        if self.place_of(member.name).is_some() {
            return Err(Refusal::NameEnrolled);
        }
        if self.members.len() >= 60 {
            return Err(Refusal::NoRoom);
        }
        Ok(())
    }

    // Puts a member on the roll, with a contribution of 1 to 25,000,000 euros.
    pub fn enrol(&mut self, name: Name, contribution: u64) -> Result<(), Refusal>
        ensures did { Did (state self.old) (enrols (record { name = name; contribution = contribution })) tt (state self.new) result }
        ensures lawful { Lawful (state self.new) }
    {
        let member = Member { name, contribution };
        self.takes_member(member)?;
        self.members.insert(member).unwrap();
        Ok(())
    }

    // Whether the roll can be closed, and why not if it cannot.
    fn takes_closing(&self) -> Result<(), Refusal>
        ensures { result ≡ answer (refusal (state self.now) close_roll) tt }
    {
        if self.stage != Stage::Roll {
            return Err(Refusal::OtherStage);
        }
        if self.members.len() == 0 {
            return Err(Refusal::NobodyToServe);
        }
        Ok(())
    }

    // Closes the roll: from now on members have numbers, from 0 in byte order of name.
    pub fn close_roll(&mut self) -> Result<(), Refusal>
        ensures did { Did (state self.old) close_roll tt (state self.new) result }
        ensures lawful { Lawful (state self.new) }
    {
        self.takes_closing()?;
        self.stage = Stage::Auction;
        Ok(())
    }
}
