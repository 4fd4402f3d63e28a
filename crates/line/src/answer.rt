ghost use Rattle.std.specs.Prelude.{◌≡◌, ◌+◌, ◌<◌, ◌≤◌, ◌++◌, ◌∷◌, [], length, take};

use crate::table::MAX_CONTROLLERS;
use controller::Marks;

/// What a bit time answers: the level of the line and the marks of each controller.
#[derive(Clone, Copy)]
pub struct Answer {
    level: bool,
    marks: [Marks; MAX_CONTROLLERS],
    controllers: usize,
    ghost places: { length marks ≡ 16 },
    ghost few: { controllers ≤ 16 },
}

impl Answer {
    /// A level, and nothing of any controller yet.
    pub(crate) fn new(level: bool) -> Answer
        ensures level { result.level ≡ level }
        ensures none { result.controllers ≡ 0 }
    {
        Answer {
            level,
            marks: [Marks::none(); MAX_CONTROLLERS],
            controllers: 0,
        }
    }

    /// The marks of the next controller, by its number.
    pub(crate) fn push(&mut self, number: usize, marks: Marks)
        requires next { number ≡ self.old.controllers }
        requires room { number < 16 }
        ensures level { self.new.level ≡ self.old.level }
        ensures controllers { self.new.controllers ≡ self.old.controllers + 1 }
        ensures marks { take self.new.controllers self.new.marks ≡ take self.old.controllers self.old.marks ++ marks ∷ [] }
    {
        self.marks[number] = marks;
        self.controllers = number + 1;
    }

    /// The level of the line.
    pub fn level(&self) -> bool
        ensures { result ≡ self.now.level }
    {
        self.level
    }

    /// The marks of the controllers, by their numbers.
    pub fn marks(&self) -> &[Marks]
        ensures { result.now ≡ take self.now.controllers self.now.marks }
    {
        &self.marks[..self.controllers]
    }
}
