ghost use Rattle.std.specs.Prelude.{◌≡◌, OnOk};
ghost use Rattle.wg_typing.specs.Layers as l;
ghost use Rattle.wg_typing.specs.RulesShared as r;
ghost use Rattle.wg_typing.specs.TypingActs.{is_sync, is_output, called_at};
ghost use Rattle.wg_typing.specs.Site.{AtValue};
ghost use Rattle.wg_typing.specs.Sites.{only};
ghost use Rattle.wg_notes.specs.Notes as n;

use crate::acts;
use crate::notes::{Maybe, Noted, Notes};
use crate::parts::typed_part;
use wg_typing::{Around, NamedCall, Part, TypedPart, Value};
use wg_words::Place;

impl Notes {
    /// A barrier that syncs, where none may stand.
    pub fn barrier_used(&mut self, call: Option<NamedCall>) -> Noted
        ensures { OnOk result (self.new.list ≡ n.with_faults 307 (called_at is_sync call) self.old.list) }
    {
        match call {
            Some(call) => self.fault_if(acts::is_sync(call.kind), 307, call.name),
            None => Ok(()),
        }
    }

    /// An output call, where none may stand.
    pub fn output_used(&mut self, call: Option<NamedCall>) -> Noted
        ensures { OnOk result (self.new.list ≡ n.with_faults 308 (called_at is_output call) self.old.list) }
    {
        match call {
            Some(call) => self.fault_if(acts::is_output(call.kind), 308, call.name),
            None => Ok(()),
        }
    }

    fn no_value_at(&mut self, place: Place, value: &Value) -> Noted
        ensures { OnOk result (self.new.list ≡ n.with_faults 303 (r.no_value_at place (Some value.now)) self.old.list) }
    {
        match value {
            Value::Typed { .. } => Ok(()),
            Value::Object { .. } | Value::Text { .. } => self.fault(303, place),
            Value::Act { act, .. } => self.fault_if(acts::act_kind(act).is_none(), 303, place),
        }
    }

    /// What has to be a value and is none.
    pub fn no_value(&mut self, part: &Part) -> Noted
        ensures { OnOk result (self.new.list ≡ n.with_faults 303 (r.no_value part.now) self.old.list) }
    {
        match &part.value {
            Some(value) => self.no_value_at(part.place, value),
            None => Ok(()),
        }
    }

    fn no_value_in(&mut self, around: &Around, part: &Part) -> Noted
        ensures { OnOk result (self.new.list ≡ n.with_faults 303 (r.no_value_in around.now part.now) self.old.list) }
    {
        match around {
            Around::Entry { .. } | Around::Plain | Around::Const => self.no_value(part),
            Around::Attribute { .. } => match &part.value {
                Some(Value::Text { .. }) => Ok(()),
                _ => self.no_value(part),
            },
        }
    }

    /// What is broken where a value has to stand.
    pub fn value(&mut self, around: &Around, part: &Part) -> Noted
        ensures { OnOk result (self.new.list ≡ n.noted_at (AtValue around.now part.now) self.old.list) }
    {
        self.no_value_in(around, part)?;
        let call = acts::call_of(part);
        self.barrier_used(call)?;
        self.output_used(call)
    }

    /// A part that has to be a value, as one that has a type.
    pub fn typed(&mut self, around: &Around, part: Part) -> Maybe<TypedPart>
        ensures { n.Gives (l.typed_part part) (only (AtValue around.now part)) result self.old.list self.new.list }
    {
        self.value(around, &part)?;
        Ok(typed_part(part))
    }
}
