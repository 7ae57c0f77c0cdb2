//! The script of the page.

/// Hides the messages of which neither they nor the ones that go with them have each word of the filter. Without it the table is whole.
pub(crate) const SCRIPT: &str =
    "\n(function(){var box=document.getElementById('filter'),told=document.getElementById('told'),rows=[].slice.call(document.querySelectorAll('tr[data-n]')),by={};\nrows.forEach(function(r){by[r.dataset.n]=r;r.text=r.textContent.toLowerCase()});\nfunction run(){var words=box.value.toLowerCase().split(/\\s+/).filter(Boolean),n=0;\nfunction has(r){return r&&words.every(function(w){return r.text.indexOf(w)>=0})}\nrows.forEach(function(r){var on=!!(has(r)||has(by[r.dataset.pair]));r.hidden=!on;n+=on});\n[].forEach.call(document.querySelectorAll('tr.gap'),function(g){g.hidden=words.length>0});told.textContent=words.length?n+' of '+rows.length+' messages':rows.length+' messages'}\ndocument.getElementById('tools').hidden=false;box.addEventListener('input',run);run()})();\n";
