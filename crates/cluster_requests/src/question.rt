ghost use Rattle.std.specs.Prelude.{◌≡◌, IfOk};
ghost use Rattle.cluster_requests.specs.Contents.{content_of, read_content};
ghost use Rattle.cluster_requests.specs.Taking.{least_of};

use crate::content::Content;
use cat_model::{Answer, Asked, Draw, Memory, Request, Shared};
use std::marker::Model;
use std::ops::Deref;

/// A request with its number, the agent that was asked, and the words that were drawn for it. Numbers start at 1.
#[derive(Drop)]
pub struct Question {
    number: u64,
    agent: u32,
    asked: Shared<Asked>,
    draw: Draw,
}

impl Model for Question {
    ghost use Rattle.cluster_rules.specs.Replies as rules;

    ghost Value = { rules.Question };

    ghost view = { λ q. record { number = q.number; agent = q.agent; asked = q.asked; draw = q.draw } };
}

impl Question {
    pub fn new(number: u64, agent: u32, asked: Shared<Asked>, draw: Draw) -> Question
        ensures { result ≡ record { number = number; agent = agent; asked = asked; draw = draw } }
    {
        Question {
            number,
            agent,
            asked,
            draw,
        }
    }

    pub fn number(&self) -> u64
        ensures { result ≡ self.now.number }
    {
        self.number
    }

    pub fn agent(&self) -> u32
        ensures { result ≡ self.now.agent }
    {
        self.agent
    }

    pub fn asked(&self) -> &Asked
        ensures { result.now ≡ self.now.asked }
    {
        self.asked.deref()
    }

    pub fn draw(&self) -> Draw
        ensures { result ≡ self.now.draw }
    {
        self.draw
    }

    /// The index above which a read answers, and 0 of any other request.
    pub fn least(&self) -> u64
        ensures { result ≡ least_of self.now.asked }
    {
        match self.asked.deref() {
            Asked::Good(Request::Read { min, .. }) => *min,
            _ => 0,
        }
    }

    /// A copy of this request.
    pub fn copy(&self) -> Result<Question, Memory>
        ensures { IfOk result (λ copy. copy ≡ self.now) }
    {
        let asked = self.asked.share()?;
        Ok(Question::new(self.number, self.agent, asked, self.draw))
    }

    /// What a read shows with this answer to its query.
    pub fn read_content(&self, answer: Answer) -> Result<Content, Memory>
        ensures { IfOk result (λ content. content_of content ≡ read_content self.now.asked answer) }
    {
        match self.asked.deref() {
            Asked::Good(Request::Read { query, raw, .. }) => match query.share() {
                Ok(query) => Ok(Content::Shows {
                    query,
                    raw: *raw,
                    answer,
                }),
                Err(Memory) => {
                    drop(answer);
                    Err(Memory)
                }
            },
            _ => {
                drop(answer);
                Ok(Content::Blank)
            }
        }
    }
}
