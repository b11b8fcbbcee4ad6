//! Laws of coins and of the losses that they draw.

ghost use Rattle.std.specs.Prelude.{◌≡◌, ◌<◌, ◌^◌, ◌==◌, ◌&&◌, ℕ, List, true, false, not};
ghost use Rattle.std.specs.List.{list_all, list_any};
ghost use Rattle.link_trace.specs.Passes.{Lines, is_link, passes};
ghost use Rattle.link_trace.specs.declared.lines.LinkLine.{LinkLine};
ghost use Rattle.drawn_links.specs.Coins.{coin, coin_key, coin_passes};
ghost use Rattle.drawn_links.specs.Drawings.{has_coins};
ghost use Rattle.drawn_links.specs.DrawnLosses.{drawn, drawn_losses, is_drawn};
ghost use Rattle.drawn_links.specs.Ratios.{ratio_in};
ghost use Rattle.drawn_links.specs.declared.ratio_line.RatioLine.{RatioLine};

/// Ten coins of five seeds, worked out outside by the generator's published code.
#[tactic(auto, unfolding(crate::specs::Coins::coin))]
pub fn coins_as_worked_out()
    ensures first { coin 0 (coin_key 0 0 0 1 2) ≡ 1137214009056801 }
    ensures frame { coin 0 (coin_key 5 1 0 1 2) ≡ 4014732482422047 }
    ensures seed { coin 7 (coin_key 5 1 0 1 2) ≡ 8777675552239482 }
    ensures turned { coin 7 (coin_key 5 1 0 2 1) ≡ 5851331537198630 }
    ensures step { coin 7 (coin_key 5 1 1 1 2) ≡ 7890147139648782 }
    ensures slot { coin 7 (coin_key 5 2 0 1 2) ≡ 2643720105660584 }
    ensures later { coin 7 (coin_key 6 1 0 1 2) ≡ 6915761046295098 }
    ensures next { coin 8 (coin_key 6 1 0 1 2) ≡ 6453069147342892 }
    ensures long_seed { coin 18446744073709551615 (coin_key 4095 45 11 199 200) ≡ 4158657337965233 }
    ensures greatest { coin 9999999999999 (coin_key 4095 45 11 200 199) ≡ 3524743709020939 }
{}

/// Each coin is below 2^53. So a ratio of a million passes always, and a ratio of 0 never.
pub fn coins_are_parts()
    ensures below { (seed key : ℕ) → coin seed key < 2 ^ 53 }
    ensures always { (seed key : ℕ) → coin_passes 1000000 seed key ≡ true }
    ensures never { (seed key : ℕ) → coin_passes 0 seed key ≡ false }
{}

/// Over the lines with the drawn losses a link passes if and only if it passes over those of the trace, and is not drawn where coins
/// are thrown.
pub fn links_pass_by_coins()
    ensures { (t : Lines) (ratios : List RatioLine) (seed frames f j k u v : ℕ)
        → passes (drawn t ratios seed frames) f j k u v ≡ (passes t f j k u v && not (has_coins frames f j k && is_drawn ratios seed f j k u v)) }
{}

/// Where all ratios are a million, as where there are none, nothing is drawn.
pub fn full_ratios_draw_nothing()
    ensures { (t : Lines) (ratios : List RatioLine) (seed frames : ℕ) → list_all (λ l. l.ratio == 1000000) ratios ≡ true
        → drawn t ratios seed frames ≡ t }
{}

/// The losses are drawn by the ratios of links of the trace alone: ratios of other pairs change nothing.
pub fn only_ratios_of_links_count()
    ensures { (links : List LinkLine) (a b : List RatioLine) (seed frames : ℕ)
        → ((f u v : ℕ) → list_any (is_link u v) links ≡ true → ratio_in a f u v ≡ ratio_in b f u v)
        → drawn_losses links a seed frames ≡ drawn_losses links b seed frames }
{}
