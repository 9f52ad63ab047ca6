// The menus, page by page, and which sets are menus.
use crate::Day;
use crate::kitchen::{NO_ROLLS, TRIFLE_MENU};
use crate::show::{No, yes};
use planner::Listing;
use std::io;

impl Day<'_> {
    // Reads every menu, under a title.
    pub fn menus(&self, title: &str) -> io::Result<()> {
        println!(self.rt; "= {title}")?;
        let guesses = self.planner.guesses();
        println!(self.rt; "guesses: {guesses}")?;
        let mut from = 0;
        // a page takes a guess or more
        for _ in 0..guesses {
            match self.list(from)? {
                Some(next) if next < guesses => from = next,
                _ => break,
            }
        }
        Ok(())
    }

    // Lists on a page of one place, and answers where the next page starts.
    pub fn list(&self, from: u32) -> io::Result<Option<u32>> {
        let mut page = [0];
        match self.planner.list(from, &mut page) {
            Ok(Listing { count, next }) => {
                print!(self.rt; "list from {from}: count {count}, next {next}")?;
                for &set in page.iter().take(count) {
                    print!(self.rt; ", menu{}", self.dishes(set))?;
                }
                println!(self.rt; "")?;
                Ok(Some(next))
            }
            Err(refusal) => {
                println!(self.rt; "list from {from}: {}", No(refusal))?;
                Ok(None)
            }
        }
    }

    // Asks of a menu and of what is none.
    pub fn ask(&self) -> io::Result<()> {
        for set in [TRIFLE_MENU, NO_ROLLS] {
            let stands = yes(self.planner.stands(set));
            println!(self.rt; "stands{}: {stands}", self.dishes(set))?;
        }
        Ok(())
    }
}
