// A trial: one list of calls on two trios and on the model.
use crate::lists::Told;
use crate::model::Model;
use crate::report::Report;
use crate::sample::Sample;
use crate::sides::{Side, replayed};
use crate::source::Source;
use crate::three::Three;
use calls::{Answer, Table};
use layouts::Layout;
use placement::Shape;
use std::alloc::{AllocError, Global};

// The model, and two trios that begin with its entries.
#[derive(Drop)]
pub struct Trial<E> {
    pub model: Model<E>,
    first: Side<E>,
    second: Side<E>,
}

impl<E: Sample> Trial<E> {
    // Random entries over the placements of both sides. The store of one table may be too short on both.
    pub fn new(
        source: &mut Source,
        shapes: &Three<Shape>,
        layouts: &Three<Layout>,
        others: &Three<Layout>,
        short: Option<Table>,
    ) -> Result<Trial<E>, AllocError> {
        let model = Model::random(source, shapes, short.is_none())?;
        let first = Side::new(source, layouts, short, &model)?;
        let second = Side::new(source, others, short, &model)?;
        Ok(Trial {
            model,
            first,
            second,
        })
    }

    // Makes the calls that were made on the model on both trios, and compares all answers, entries and idle cells.
    pub fn agrees(&mut self, heap: Global, script: &[Told<E>]) -> Result<bool, AllocError> {
        let outcomes = replayed(heap, &mut self.first, &mut self.second, script)?;
        let answers: Vec<Answer<E>> = script.iter().map(|told| told.answer).collect(heap)?;
        Ok(
            outcomes.first.answers == answers
                && outcomes.second.answers == answers
                && self.first.agrees(&self.model)
                && self.second.agrees(&self.model),
        )
    }

    // Counts the calls and the runs that were finished.
    pub fn count(&self, script: &[Told<E>], report: &mut Report) {
        for told in script {
            report.note_call(&told.call, &told.answer);
        }
        report.note_finished(self.model.finished());
    }
}
